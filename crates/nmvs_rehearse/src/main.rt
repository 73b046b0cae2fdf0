//! The program of the rehearsal: a session to learn by, over standard input and output.
//!
//! `./nmvs-serve` without arguments runs it, so its faults begin with `nmvs-serve: `.
#![tactic(auto)]

use nmvs_messages::End;
use nmvs_rehearsal::rehearse_on_standard_input;
use std::io::BufWriter;
use std::process::ExitCode;

fn main(rt: HostRuntime) -> ExitCode {
    let alloc = rt.alloc();
    let end = match BufWriter::new(alloc, rt.stdout()) {
        Ok(output) => rehearse_on_standard_input(&rt, alloc, output),
        Err(_) => End::Memory,
    };
    let fault = match end {
        End::Quit | End::Ended => return ExitCode::SUCCESS,
        End::ReadFault => "session read fault",
        End::WriteFault => "session write fault",
        End::Limit => "session limit",
        End::Memory => "out of memory",
    };
    let _ = eprintln!(rt; "nmvs-serve: {fault}");
    ExitCode::from(1)
}
