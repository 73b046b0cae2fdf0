//! The program of a read replica: it follows the log of a server, and answers readers of flagged alerts and their cases.
#![tactic(auto)]

mod act_body;
mod answers;
mod appended_file;
mod case_file;
mod client;
mod command_line;
mod followed_file;
mod kept_answers;
mod listener;
mod looks;
mod options;
mod pages;
mod query;
mod refusal;
mod replica;
mod routes;
mod rows_json;
mod service;
mod trail;
mod users;
mod witness_file;

use crate::appended_file::StartFault;
use crate::command_line::OptionFault;
use crate::listener::{ReaderListener, current_moment};
use crate::options::{Options, read_options};
use crate::replica::Replica;
use nmvs_shard::HashKey;
use std::alloc::Global;
use std::process::ExitCode;
use std::rt::Env;
use std::{env, io};

/// The status if the replica does not start, or cannot go on.
const TROUBLE: u8 = 2;

fn main(rt: HostRuntime) -> ExitCode {
    let alloc = rt.alloc();
    let Ok(words) = words(&rt) else {
        return fail(&rt, "out of memory");
    };
    match read_options(alloc, &words) {
        Ok(options) => start(&rt, alloc, &options),
        Err(OptionFault::Help(text)) => {
            let _ = print!(rt; "{text}");
            ExitCode::SUCCESS
        }
        Err(OptionFault::Refused(text)) => {
            let _ = eprint!(rt; "{text}");
            ExitCode::from(TROUBLE)
        }
        Err(OptionFault::Memory) => fail(&rt, "out of memory"),
    }
}

/// The words of the command line after the program's own name.
fn words<R: Env + AllocGlobal>(rt: &R) -> io::Result<Vec<String>> {
    let words = env::args(rt)?.skip(1).collect(rt.alloc())?;
    Ok(words)
}

/// Opens the files and the port, and serves. The result is the status of a start that failed, or of a replica that cannot go on.
fn start(rt: &HostRuntime, alloc: Global, options: &Options) -> ExitCode {
    let Ok(key) = HashKey::draw(rt) else {
        return fail(rt, "no random bytes");
    };
    let Ok(now) = current_moment(rt) else {
        return fail(rt, "the clock cannot be read");
    };
    let mut replica = match Replica::open(rt, alloc, key, now, options) {
        Ok(replica) => replica,
        Err(StartFault::Memory) => return fail(rt, "out of memory"),
        Err(StartFault::Refused(text)) => return fail(rt, &text),
    };
    serve(rt, alloc, options, &mut replica)
}

fn serve(rt: &HostRuntime, alloc: Global, options: &Options, replica: &mut Replica) -> ExitCode {
    let mut listener = match ReaderListener::open(rt, options.listen, options.reads_as) {
        Ok(listener) => listener,
        Err(fault) => {
            let _ = eprintln!(rt; "{}: {fault}", options.listen);
            return ExitCode::from(TROUBLE);
        }
    };
    if let Some(port) = listener.port() {
        let _ = eprintln!(rt; "listening on port {port}");
    }
    match listener.serve(rt, alloc, replica) {
        Ok(()) => ExitCode::SUCCESS,
        Err(fault) => {
            let _ = eprintln!(rt; "{fault}");
            ExitCode::from(TROUBLE)
        }
    }
}

/// Prints a fault, and returns the status of trouble.
fn fail(rt: &HostRuntime, fault: &str) -> ExitCode {
    let _ = eprintln!(rt; "{fault}");
    ExitCode::from(TROUBLE)
}
