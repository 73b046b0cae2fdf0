//! The program's own messages on standard error: the faults of its options, and the reason of a failure.
//!
//! A message is a line of text. If the log is JSON, it is an event of the log, at every level.
use log::{LevelFilter, error};
use nmvs_log::{EventLog, LogFormat};
use nmvs_server::Fault;
use std::fmt::Display;
use std::process::ExitCode;
use std::rt::Clock;

/// The form of the log that the words of a command line ask for, even if they are refused.
pub(crate) fn format_in(words: &[String]) -> LogFormat {
    let mut is_format = false;
    for word in words {
        match word.as_str() {
            "--log-format=json" => return LogFormat::Json,
            "json" if is_format => return LogFormat::Json,
            text => is_format = text == "--log-format",
        }
    }
    LogFormat::Text
}

/// Prints the faults, and returns the status of the last one.
pub(crate) fn ended<R: Eprint + Clock>(
    rt: &R,
    format: LogFormat,
    faults: &[Option<Fault<'_>>],
) -> ExitCode {
    let mut status = ExitCode::SUCCESS;
    for fault in faults {
        if let Some(fault) = fault {
            say(rt, format, "nmvs-serve", fault);
            status = ExitCode::from(fault.status());
        }
    }
    status
}

/// Prints the fault of a command line. A log in JSON has only the first line of a text of several lines.
pub(crate) fn refuse_words<R: Eprint + Clock>(rt: &R, format: LogFormat, text: &str) -> ExitCode {
    match format {
        LogFormat::Text => {
            let _ = eprint!(rt; "{text}");
        }
        LogFormat::Json => {
            let first = text.lines().next().unwrap_or(text);
            say(
                rt,
                format,
                "error",
                first.strip_prefix("error: ").unwrap_or(first),
            );
        }
    }
    ExitCode::from(2)
}

/// Prints one message.
pub(crate) fn say<R: Eprint + Clock, D: Display + Drop>(
    rt: &R,
    format: LogFormat,
    opening: &str,
    reason: D,
) {
    match format {
        LogFormat::Text => {
            let _ = eprintln!(rt; "{opening}: {reason}");
        }
        LogFormat::Json => {
            let log = EventLog::new(rt, LevelFilter::Error, format);
            error!(log; "{reason}");
        }
    }
}
