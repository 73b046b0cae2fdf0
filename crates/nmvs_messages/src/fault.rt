//! The faults with which lines and connections are answered.
ghost use Rattle.std.specs.Prelude.{◌≡◌, Some, map, slice_get};
ghost use Rattle.nmvs_messages.specs.Words.{word_of};

use self::Problem::{Forbidden, Unavailable, Unknown, Unprocessable};
use crate::{LineFault, Turn};

/// Why a line or a connection is answered with a fault.
#[derive(Clone, Copy)]
pub enum Fault {
    /// The line cannot be read.
    Unread(LineFault),
    /// The desk turned the line away.
    Turned(Turn),
    /// The connection is one too many.
    Busy,
    /// The connection asked nothing for too long.
    Idle,
}

/// The problem of a question without a reply: its faults, grouped by status of HTTP.
#[derive(Clone, Copy)]
pub enum Problem {
    /// The line cannot be read, or its tag is that of another question.
    Unprocessable,
    /// The user may not ask this.
    Forbidden,
    /// The question may be a late copy of one that gave the state of the pack, and that state has changed.
    Conflict,
    /// The values printed on the pack are not those of its upload.
    PreconditionFailed,
    /// The user asks more than the rate allows.
    TooManyRequests,
    /// The server cannot answer now. Nothing is recorded.
    Unavailable,
    /// The server cannot answer now. The question may be recorded.
    Unknown,
}

/// The faults (own), each with its word and its problem.
pub const FAULTS: [(&str, Problem); 24] = [
    ("LONG", Unprocessable),
    ("RETURN", Unprocessable),
    ("BYTES", Unprocessable),
    ("FIELDS", Unprocessable),
    ("WORD", Unprocessable),
    ("CODE", Unprocessable),
    ("SERIAL", Unprocessable),
    ("BATCH", Unprocessable),
    ("EXPIRY", Unprocessable),
    ("USER", Unprocessable),
    ("CLOCK", Unavailable),
    ("NOBODY", Forbidden),
    ("SUSPENDED", Forbidden),
    ("CLOSED", Unavailable),
    ("ROLE", Forbidden),
    ("MEMORY", Unavailable),
    ("RATE", Problem::TooManyRequests),
    ("JOURNAL", Unknown),
    ("TAG", Unprocessable),
    ("DIFFERS", Problem::PreconditionFailed),
    ("CHANGED", Problem::Conflict),
    ("PRODUCT", Forbidden),
    ("BUSY", Unknown),
    ("IDLE", Unknown),
];

impl Fault {
    /// Its place among [`FAULTS`].
    pub fn place(self) -> usize
        ensures { slice_get (map (λ row. row.0.now) FAULTS) result ≡ Some (word_of self) }
    {
        match self {
            Fault::Unread(fault) => fault as usize,
            Fault::Turned(Turn::Clock) => 10,
            Fault::Turned(Turn::Nobody) => 11,
            Fault::Turned(Turn::Suspended) => 12,
            Fault::Turned(Turn::Closed) => 13,
            Fault::Turned(Turn::Role) => 14,
            Fault::Turned(Turn::Memory) => 15,
            Fault::Turned(Turn::Rate) => 16,
            Fault::Turned(Turn::Journal) => 17,
            Fault::Turned(Turn::Tag) => 18,
            Fault::Turned(Turn::Differs) => 19,
            Fault::Turned(Turn::Changed) => 20,
            Fault::Turned(Turn::Product) => 21,
            Fault::Busy => 22,
            Fault::Idle => 23,
        }
    }

    /// The word after FAULT.
    pub fn word(self) -> &'static str
        ensures { result.now ≡ word_of self }
    {
        FAULTS[self.place()].0
    }
}
