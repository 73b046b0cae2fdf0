//! The rows through the rehearsal, as lines and their replies.
ghost use Rattle.std.specs.Prelude.{◌<◌, length};

use crate::rows::{EVENTS, Example, HANDOVERS, NEW_YEAR, OPERATIONS, RECALLS, VERIFICATIONS};
use nmvs_identifier::Moment;
use nmvs_messages::End;
use nmvs_rehearsal::rehearse;
use nmvs_stream::Device;
use std::alloc::Global;
use std::process::Abort;
use std::rt::HostRuntime;

fn push_line(rt: &impl Abort, bytes: &mut Vec<u8>, line: &str) {
    bytes
        .extend_from_slice(line.as_bytes())
        .expect(rt, "memory");
    bytes.push(b'\n').expect(rt, "memory");
}

/// The moments of a row.
fn moments_of(rt: &impl Abort, alloc: Global, seconds: &[i64]) -> Vec<Moment> {
    let mut moments = Vec::new(alloc);
    for second in seconds {
        let moment = Moment::new(*second).expect(rt, "a moment");
        moments.push(moment).expect(rt, "memory");
    }
    moments
}

/// Whether a rehearsal over these bytes writes those bytes, and has this end.
fn is_rehearsed(alloc: Global, moments: &[Moment], input: &[u8], wanted: &[u8], end: End) -> bool
    requires { 0 < length moments.now }
{
    let mut output = Vec::new(alloc);
    let ended = rehearse(
        alloc,
        &mut Device::new(input),
        &mut Device::new(&mut output),
        moments,
    );
    ended == end && output.as_slice() == wanted
}

/// Whether a row gets its replies.
fn is_answered(rt: &impl Abort, alloc: Global, row: &Example) -> bool {
    let mut input = Vec::new(alloc);
    let mut wanted = Vec::new(alloc);
    let mut end = End::Ended;
    for (line, reply) in row.lines {
        push_line(rt, &mut input, line);
        push_line(rt, &mut wanted, reply);
        if *line == "QUIT" {
            end = End::Quit;
        }
    }
    let moments = moments_of(rt, alloc, row.moments);
    !moments.is_empty() && is_rehearsed(alloc, &moments, &input, &wanted, end)
}

/// Asks each of these rows.
fn answer_all(rt: &impl Abort, alloc: Global, rows: &[Example]) {
    for row in rows {
        assert!(rt; is_answered(rt, alloc, row), "{}", row.shows);
    }
}

#[test]
fn rows_get_their_replies(rt: HostRuntime) {
    answer_all(&rt, rt.alloc(), VERIFICATIONS);
    answer_all(&rt, rt.alloc(), OPERATIONS);
    answer_all(&rt, rt.alloc(), RECALLS);
    answer_all(&rt, rt.alloc(), EVENTS);
    answer_all(&rt, rt.alloc(), HANDOVERS);
}

#[test]
fn a_last_line_without_its_lf_gets_no_reply(rt: HostRuntime) {
    let moments = moments_of(&rt, rt.alloc(), &[NEW_YEAR]);
    let input = b"ph1 STATUS 09506000134352 SN1\nQUIT";
    assert!(rt; !moments.is_empty());
    assert!(rt; is_rehearsed(rt.alloc(), &moments, input, b"NOPACK\n", End::Ended));
}
