//! The program of the repository.
#![tactic(auto)]

mod check;
mod report;

ghost use Rattle.nmvs_stream.specs.Console.{IsFresh};

use crate::check::{asks_check, check_users};
use crate::report::{ended, format_in, refuse_words, say};
use log::{Log, info};
use nmvs_admin::{AdminFault, open, remove_socket};
use nmvs_log::{EventLog, LogFormat};
use nmvs_operator::{
    ConfigFault, OPTIONS, OptionFault, Options, config_path, read_config, read_options, with_config,
};
use nmvs_rehearsal::rehearse_on_standard_input;
use nmvs_server::{
    Beside, CopyNotes, Dialer, EngineThreads, Fault, Host, Outcome, outcome_of, start,
};
use nmvs_stream::{Console, Device, Sink, Source};
use std::alloc::{AllocError, Global};
use std::fmt::Display;
use std::io::{BufWriter, Eprint, Print};
use std::process::ExitCode;
use std::rt::{Clock, Env, Files};
use std::sync::Arc;
use std::sync::atomic::AtomicBool;
use std::{env, fs, io, thread};

fn main(rt: HostRuntime) -> ExitCode {
    let alloc = rt.alloc();
    let Ok(words) = words(&rt) else {
        return ended(&rt, LogFormat::Text, &[Some(Fault::Memory)]);
    };
    let Ok(output) = BufWriter::new(alloc, rt.stdout()) else {
        return ended(&rt, format_in(&words), &[Some(Fault::Memory)]);
    };
    if words.is_empty() {
        let end = rehearse_on_standard_input(&rt, alloc, output);
        return ended(&rt, LogFormat::Text, &[outcome_of(end).err()]);
    }
    let console = Console::new(Device::new(rt.stdin()), Device::new(output));
    let options = match options(&rt, words) {
        Ok(options) => options,
        Err(status) => return status,
    };
    let options = &options;
    let rt = EventLog::new(rt, options.log_level, options.log_format);
    let Some(cluster) = &options.cluster else {
        return finish(&rt, options, serve_one(rt, alloc, options, console));
    };
    // The runtime itself opens connections, which in this toolchain no thread but one of `main` can have it do.
    let (dialer, notes, host) = (&Dialer::new(cluster.engine), &CopyNotes::new(), &rt);
    let threads = EngineThreads { dialer, notes };
    let outcome = thread::scope(thread::scope_env(), host, |scope| {
        let Ok(dialing) = scope.spawn(move || dialer.run(host)) else {
            return memory_refused();
        };
        let Ok(noting) = scope.spawn(move || notes.run(host)) else {
            threads.end();
            dialing.join(host);
            return memory_refused();
        };
        let outcome = serve(*host, alloc, options, console, Some(threads));
        dialing.join(host);
        noting.join(host);
        outcome
    });
    finish(&rt, options, outcome)
}

/// Logs the end, and returns the status of the program.
fn finish<R: Eprint + Clock + Log>(rt: &R, options: &Options, outcome: Outcome<'_>) -> ExitCode {
    let status = ended(rt, options.log_format, &[outcome.session, outcome.program]);
    info!(rt; "end");
    status
}

/// Serves one session over the console, or connections, by a server that is alone.
fn serve_one<'o, R: Host + Sync + Copy + Drop, I: Source + Drop, W: Sink + Drop>(
    rt: R,
    alloc: Global,
    options: &'o Options,
    console: Console<(I, W)>,
) -> Outcome<'o>
    requires fresh { IsFresh (I.told console.source) (W.taken console.sink) }
{
    if !options.stdin {
        return serve(rt, alloc, options, console, None);
    }
    let mut console = console;
    let interrupt = &AtomicBool::new(false);
    let beside = Beside {
        interrupt,
        threads: None,
    };
    start(&rt, alloc, options, &mut console, beside)
}

/// Serves connections, while commands come by the console and by the socket of the options, if they name one. It ends the threads
/// of a server among several machines.
fn serve<'o, R: Host + Sync + Copy + Drop, I: Source + Drop, W: Sink + Drop>(
    rt: R,
    alloc: Global,
    options: &'o Options,
    console: Console<(I, W)>,
    threads: Option<EngineThreads<'_>>,
) -> Outcome<'o> {
    let outcome = serve_console(rt, alloc, options, console, threads);
    if let Some(threads) = threads {
        threads.end();
    }
    outcome
}

/// Serves connections, while commands come by the console and by the socket.
fn serve_console<'o, R: Host + Sync + Copy + Drop, I: Source + Drop, W: Sink + Drop>(
    rt: R,
    alloc: Global,
    options: &'o Options,
    console: Console<(I, W)>,
    threads: Option<EngineThreads<'_>>,
) -> Outcome<'o> {
    let path = options.admin.as_deref();
    let Ok((interrupt, shared)) = interrupt_of(alloc, options) else {
        return memory_refused();
    };
    match open(rt, alloc, console, path, shared) {
        Ok(mut console) => {
            let interrupt = &*interrupt;
            let outcome = start(
                &rt,
                alloc,
                options,
                &mut console,
                Beside { interrupt, threads },
            );
            if let Some(path) = path {
                let _gone = remove_socket(&rt, path);
            }
            outcome
        }
        Err(fault) => Outcome {
            session: None,
            program: Some(fault_of(fault, path)),
        },
    }
}

/// The interrupt of a console, for the server, and for the console if the server is one of several machines.
fn interrupt_of(
    alloc: Global,
    options: &Options,
) -> Result<(Arc<AtomicBool>, Option<Arc<AtomicBool>>), AllocError> {
    let Ok(interrupt) = Arc::new(alloc, AtomicBool::new(false)) else {
        return Err(AllocError);
    };
    let shared = match &options.cluster {
        Some(_) => Some(Arc::try_clone(&interrupt)?),
        None => None,
    };
    Ok((interrupt, shared))
}

/// The outcome of a program without memory.
fn memory_refused<'o>() -> Outcome<'o> {
    Outcome {
        session: None,
        program: Some(Fault::Memory),
    }
}

/// The fault of a console that takes no commands at this path.
fn fault_of(fault: AdminFault, path: Option<&str>) -> Fault<'_> {
    match (fault, path) {
        (AdminFault::Socket, Some(path)) => Fault::CannotListenAt(path),
        _ => Fault::Memory,
    }
}

/// The words of the command line after the program's own name.
fn words<R: Env + AllocGlobal>(rt: &R) -> io::Result<Vec<String>> {
    let words = env::args(rt)?.skip(1).collect(rt.alloc())?;
    Ok(words)
}

/// The options of the command line and of the file that it names. If they only ask for a check, it checks. If there are none, it
/// prints the fault, or the help if the words ask for it. Then it returns the status.
fn options<R: Files + Print + Eprint + Clock + AllocGlobal>(
    rt: &R,
    words: Vec<String>,
) -> Result<Options, ExitCode> {
    let words = with_file(rt, words)?;
    let format = format_in(&words);
    match read_options(rt.alloc(), &words) {
        Ok(options) if options.check => Err(check_users(rt, &options)),
        Ok(options) => Ok(options),
        Err(OptionFault::Help(text)) => {
            let _ = print!(rt; "{text}");
            Err(ExitCode::SUCCESS)
        }
        Err(OptionFault::Refused(text)) => Err(refuse_words(rt, format, &text)),
        Err(OptionFault::Memory) => Err(ended(rt, format, &[Some(Fault::Memory)])),
    }
}

/// The words of the file that the command line names, if it names one, and then those of the command line. A command line that
/// asks for help or the version reads no file. If the file is refused, it prints the fault, and returns the status.
fn with_file<R: Files + Eprint + Clock + AllocGlobal>(
    rt: &R,
    words: Vec<String>,
) -> Result<Vec<String>, ExitCode> {
    let format = format_in(&words);
    let named = match config_path(&words) {
        Some(path) if !asks_help(&words) => String::from_str(rt.alloc(), path),
        _ => return Ok(words),
    };
    let Ok(path) = named else {
        return Err(ended(rt, format, &[Some(Fault::Memory)]));
    };
    // A start prints the first fault alone.
    let most = if asks_check(&words) { usize::MAX } else { 1 };
    read_words(rt, &path, words).map_err(|fault| refuse_file(rt, format, &path, &fault, most))
}

/// Prints the fault of the file at this path, of its entries at most this many, and returns the status.
fn refuse_file<R: Eprint + Clock>(
    rt: &R,
    format: LogFormat,
    path: &str,
    fault: &ConfigFault,
    most: usize,
) -> ExitCode {
    match fault {
        ConfigFault::Memory => return ended(rt, format, &[Some(Fault::Memory)]),
        ConfigFault::Entries(faults) => {
            for (key, fault) in faults.iter().take(most) {
                say_refused(rt, format, path, format_args!("'{key}' {fault}"));
            }
        }
        _ => say_refused(rt, format, path, fault),
    }
    ExitCode::from(2)
}

/// Prints that the file at this path is refused for this reason.
fn say_refused<R: Eprint + Clock, D: Display + Drop>(
    rt: &R,
    format: LogFormat,
    path: &str,
    reason: D,
) {
    let refused = format_args!("invalid value '{path}' for '--config <FILE>': {reason}");
    say(rt, format, "error", refused);
}

/// The words of the file at this path, and then those of the command line.
fn read_words<R: Files + AllocGlobal>(
    rt: &R,
    path: &str,
    words: Vec<String>,
) -> Result<Vec<String>, ConfigFault> {
    let file = fs::open(rt, path).map_err(|error| ConfigFault::Open(error))?;
    let text = read_config(rt.alloc(), &mut Device::new(file))?;
    with_config(rt.alloc(), &OPTIONS, &text, words)
}

/// Whether one of the words asks for help or the version.
fn asks_help(words: &[String]) -> bool {
    words.iter().any(|word| matches!(word.as_str(), "--help" | "-h" | "--version" | "-V"))
}
