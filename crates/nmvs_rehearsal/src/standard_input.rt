//! The rehearsal over standard input.
use crate::rehearse_at_new_year;
use nmvs_messages::End;
use nmvs_stream::Device;
use std::alloc::Global;
use std::io::{IsTerminal, Write};
use std::rt::HostRuntime;

/// The greeting of the rehearsal on a terminal.
const GREETING: &str =
    "A rehearsal: nothing is kept. Users: mah1 mah2 ph1 ph1b ph2 wh1 mf1 au1. QUIT or Ctrl-D ends it.\n\
    A line is a user and a question, as ph1 STATUS 09506000134352 SN1; HELP tells them all.";

/// The rehearsal over standard input and this output. On a terminal it greets.
pub fn rehearse_on_standard_input<W: Write + Drop>(
    rt: &HostRuntime,
    alloc: Global,
    output: W,
) -> End {
    if rt.stdin().is_terminal() && rt.stdout().is_terminal() {
        let _ = println!(rt; "{GREETING}");
    }
    let mut output = Device::new(output);
    rehearse_at_new_year(alloc, &mut Device::new(rt.stdin()), &mut output)
}
