//! The program that checks an export. It needs the export and nothing else.
#![tactic(auto)]

mod answers;
mod command_line;
mod comparison;
mod faults;
mod inputs;
mod inspect_fault;
mod inspection;
mod line_fault;
mod options;
mod output;
mod page_file;
mod request;
mod scans;
mod status;

use crate::comparison::{CompareFault, compare};
use crate::faults::{fail, fail_answer, fail_export, fail_file, fail_line};
use crate::inputs::Inputs;
use crate::inspect_fault::InspectFault;
use crate::inspection::{inspect, inspect_part};
use crate::options::{Asked, Options, read_options};
use crate::output::Output;
use crate::page_file::{PageFault, write_page};
use crate::scans::answer_scans;
use crate::status::status_of_answer;
use nmvs_elements::National;
use nmvs_shard::HashKey;
use nmvs_stream::Device;
use std::alloc::Global;
use std::process::ExitCode;
use std::rt::Env;
use std::{env, io};

/// The most reads of an export, or of lines of scans.
const READS: u64 = 1_000_000_000;

fn main(rt: HostRuntime) -> ExitCode {
    let alloc = rt.alloc();
    let Ok(words) = words(&rt) else {
        return fail(&rt, "out of memory");
    };
    let read = read_options(alloc, &words);
    match &read {
        Ok(asked) => match answer(&rt, alloc, asked) {
            Ok(status) | Err(status) => status,
        },
        Err(fault) => fail_line(&rt, fault),
    }
}

/// The words of the command line after the program's own name.
fn words<R: Env + AllocGlobal>(rt: &R) -> io::Result<Vec<String>> {
    let words = env::args(rt)?.skip(1).collect(rt.alloc())?;
    Ok(words)
}

/// Does what is asked, and returns the status, also if a fault was printed.
fn answer(rt: &HostRuntime, alloc: Global, asked: &Asked<'_>) -> Result<ExitCode, ExitCode> {
    let Ok(key) = HashKey::draw(rt) else {
        return Err(fail(rt, "no random bytes"));
    };
    match asked {
        Asked::Inspection(options) => check(rt, alloc, key, options),
        Asked::Page { path, files } => page(rt, alloc, key, path, files),
        Asked::Comparison { old, new } => compare_files(rt, alloc, key, old, new),
        Asked::Scans(nation) => Ok(scan(rt, alloc, *nation)),
    }
}

/// Checks the export that the options name, and prints the answer or the fault.
fn check(
    rt: &HostRuntime,
    alloc: Global,
    key: HashKey,
    options: &Options<'_>,
) -> Result<ExitCode, ExitCode> {
    let mut inputs = Inputs::open(rt, alloc, &options.files)?;
    let mut output = standard_output(rt);
    match inspected(alloc, key, options, &mut inputs, &mut output) {
        Ok(None) => Ok(ExitCode::SUCCESS),
        Ok(Some(entries)) => {
            let _ = eprintln!(rt; "0 of {entries} entries");
            Ok(ExitCode::SUCCESS)
        }
        Err(InspectFault::Answer(fault)) => Err(fail_answer(rt, &output, fault)),
        Err(fault) => Err(fail_export(rt, alloc, inputs.differing, None, &fault)),
    }
}

fn inspected(
    alloc: Global,
    key: HashKey,
    options: &Options<'_>,
    inputs: &mut Inputs<'_>,
    output: &mut Output,
) -> Result<Option<usize>, InspectFault> {
    let (mut source, mut sink) = (Device::new(inputs), Device::new(output));
    let asked = &options.request;
    match options.part {
        None => inspect(alloc, key, &mut source, &mut sink, asked, READS),
        Some(part) => inspect_part(alloc, key, part, &mut source, &mut sink, asked, READS),
    }
}

/// Writes a page of the export in these files, or prints the fault.
fn page(
    rt: &HostRuntime,
    alloc: Global,
    key: HashKey,
    path: &str,
    files: &[&str],
) -> Result<ExitCode, ExitCode> {
    let mut inputs = Inputs::open(rt, alloc, files)?;
    match write_page(rt, alloc, key, &mut inputs, path, READS) {
        Ok(()) => Ok(ExitCode::SUCCESS),
        Err(PageFault::Unwritten) => Err(fail_file(rt, path, "cannot be written")),
        Err(PageFault::Export) => Err(fail_file(rt, path, "is one of the exports")),
        Err(PageFault::NoPage) => Err(fail_file(rt, path, "is there, and is no page")),
        Err(PageFault::Inspect(fault)) => {
            Err(fail_export(rt, alloc, inputs.differing, None, &fault))
        }
    }
}

/// Compares the exports in two files, and prints the answer or the fault.
fn compare_files<'a>(
    rt: &HostRuntime,
    alloc: Global,
    key: HashKey,
    old: &'a str,
    new: &'a str,
) -> Result<ExitCode, ExitCode> {
    let mut before = Inputs::open(rt, alloc, &[old])?;
    let mut after = Inputs::open(rt, alloc, &[new])?;
    let mut output = standard_output(rt);
    match compared(alloc, key, &mut before, &mut after, &mut output) {
        Ok(goes_on) => Ok(ExitCode::from(status_of_answer(goes_on))),
        Err(CompareFault::Answer(fault)) => Err(fail_answer(rt, &output, fault)),
        Err(CompareFault::Old(finding)) => {
            let fault = InspectFault::Found(finding);
            Err(fail_export(rt, alloc, before.differing, Some(old), &fault))
        }
        Err(CompareFault::New(finding)) => {
            let fault = InspectFault::Found(finding);
            Err(fail_export(rt, alloc, after.differing, Some(new), &fault))
        }
    }
}

fn compared<'i, 'a>(
    alloc: Global,
    key: HashKey,
    before: &'i mut Inputs<'a>,
    after: &'i mut Inputs<'a>,
    output: &mut Output,
) -> Result<bool, CompareFault> {
    let (mut old, mut new) = (Device::new(before), Device::new(after));
    let mut sink = Device::new(output);
    compare(alloc, key, &mut old, &mut new, &mut sink, READS)
}

/// Reads lines of scans on standard input, writes a row for each, and returns the status.
fn scan(rt: &HostRuntime, alloc: Global, nation: Option<National>) -> ExitCode {
    let mut output = standard_output(rt);
    let answered = {
        let (mut source, mut sink) = (Device::new(rt.stdin()), Device::new(&mut output));
        answer_scans(alloc, nation, &mut source, &mut sink, READS)
    };
    match answered {
        Ok(all_read) => ExitCode::from(status_of_answer(all_read)),
        Err(InspectFault::Answer(fault)) => fail_answer(rt, &output, fault),
        Err(InspectFault::Found(_)) => fail(rt, "standard input cannot be read to its end"),
    }
}

fn standard_output(rt: &HostRuntime) -> Output {
    Output {
        inner: rt.stdout(),
        is_left: false,
    }
}
