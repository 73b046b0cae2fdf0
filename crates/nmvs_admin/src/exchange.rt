//! A line that is handed over, and the answer to it.
ghost use Rattle.std.specs.Prelude.{◌≡◌, ◌≤◌, ◌++◌, ◌==◌, [], None, Some, length, take, OnOk, OnErr};
ghost use Rattle.nmvs_messages.specs.PendingLines.{kept_part};

use arrayvec::ArrayVec;
use nmvs_messages::{LONGEST_LINE, PendingLine};
use std::alloc::{AllocError, Global};
use std::{fmt, mem};

/// The most bytes of a line that are handed over: its kept part, and LF.
const HANDED: usize = LONGEST_LINE + 2;

/// The origin of a line, to which its answer goes.
#[derive(Clone, Copy)]
pub(crate) enum Side {
    /// Standard input and output.
    Standard,
    /// A signal to end. The answer to it goes to standard output.
    Signal,
    /// The connection of this number.
    Connection(usize),
}

impl fmt::Display for Side {
    fn fmt<W: fmt::Write>(&self, f: &mut fmt::Formatter<W>) -> fmt::Result {
        match self {
            Side::Standard => f.write_str("stdin"),
            Side::Signal => f.write_str("signal"),
            Side::Connection(number) => write!(f, "connection-{number}"),
        }
    }
}

/// The answer to the line of a side, or the text for standard output if there is no line.
#[derive(Drop)]
pub(crate) struct Answer {
    pub(crate) side: Side,
    pub(crate) line: Option<PendingLine>,
    pub(crate) text: Vec<u8>,
}

/// The line that was handed over last, the rest of it that is still to be read, and the answer to it so far.
#[derive(Drop)]
pub(crate) struct Exchange {
    alloc: Global,
    side: Side,
    line: Option<PendingLine>,
    unread: ArrayVec<u8, HANDED>,
    text: Vec<u8>,
}

impl Exchange {
    /// The state before the first line: a text that is written goes to standard output.
    pub(crate) fn new(alloc: Global) -> Exchange
        ensures side { result.side ≡ Side.Standard }
        ensures line { result.line ≡ None }
        ensures unread { result.unread.items ≡ [] }
        ensures text { result.text.items ≡ [] }
    {
        Exchange {
            alloc,
            side: Side::Standard,
            line: None,
            unread: ArrayVec::new(),
            text: Vec::new(alloc),
        }
    }

    /// Begins with a line of this side, which is read with this ending: LF, or nothing if it has none.
    pub(crate) fn begin(&mut self, side: Side, line: PendingLine, ending: &[u8])
        requires { length ending.now ≤ 1 }
        ensures side { self.new.side ≡ side }
        ensures line { self.new.line ≡ Some line }
        ensures unread { self.new.unread.items ≡ kept_part line ++ ending.now }
        ensures text { self.new.text.items ≡ [] }
    {
        let kept = line.as_slice();
        let count = (HANDED - 1).min(kept.len());
        self.unread.clear();
        self.unread.try_extend_from_slice(&kept[..count]).unwrap();
        self.unread.try_extend_from_slice(ending).unwrap();
        self.side = side;
        self.line = Some(line);
        self.text.clear();
    }

    /// Whether the line is read.
    pub(crate) fn is_read(&self) -> bool
        ensures { result ≡ (length self.now.unread.items == 0) }
    {
        self.unread.is_empty()
    }

    /// Reads on in the line, into the front of the buffer. It returns the number of bytes.
    pub(crate) fn read(&mut self, buffer: &mut [u8]) -> usize
        ensures fits { result ≤ length buffer.new }
        ensures bytes { self.old.unread.items ≡ take result buffer.new ++ self.new.unread.items }
        ensures side { self.new.side ≡ self.old.side }
        ensures line { self.new.line ≡ self.old.line }
        ensures text { self.new.text ≡ self.old.text }
    {
        let count = self.unread.len().min(buffer.len());
        buffer[..count].copy_from_slice(&self.unread.as_slice()[..count]);
        self.unread.drain(..count);
        count
    }

    /// Adds these bytes to the answer.
    ///
    /// # Errors
    ///
    /// There is no memory for them, and nothing is added.
    pub(crate) fn write(&mut self, bytes: &[u8]) -> Result<(), AllocError>
        ensures side { self.new.side ≡ self.old.side }
        ensures line { self.new.line ≡ self.old.line }
        ensures ok { OnOk result (self.new.text.items ≡ self.old.text.items ++ bytes.now) }
        ensures err { OnErr result (self.new.text.items ≡ self.old.text.items) }
    {
        self.text.extend_from_slice(bytes)
    }

    /// Ends the exchange: the text that was written since it began is the answer to its side. A later text goes to standard
    /// output.
    pub(crate) fn end(&mut self) -> Answer
        ensures side { result.side ≡ self.old.side }
        ensures line { result.line ≡ self.old.line }
        ensures text { result.text.items ≡ self.old.text.items }
        ensures next_side { self.new.side ≡ Side.Standard }
        ensures next_line { self.new.line ≡ None }
        ensures next_text { self.new.text.items ≡ [] }
        ensures unread { self.new.unread ≡ self.old.unread }
    {
        Answer {
            side: mem::replace(&mut self.side, Side::Standard),
            line: mem::replace(&mut self.line, None),
            text: mem::replace(&mut self.text, Vec::new(self.alloc)),
        }
    }
}
