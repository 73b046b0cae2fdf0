//! The lines of one side.
ghost use Rattle.std.specs.Prelude.{◌≡◌, ◌≤◌, ◌==◌, [], ◌∷◌, ◌++◌, ℕ, List, length, drop, IfSome, IfNone};
ghost use Rattle.nmvs_messages.specs.PendingLines.{kept_part};
ghost use Rattle.nmvs_stream.specs.InputLines.{input_lines, unfinished_line};
ghost use Rattle.nmvs_messages.specs.declared.limits.TheConstants.{READ_SIZE};
ghost use Rattle.nmvs_admin.specs.Incoming.{Waits};

use arrayvec::ArrayVec;
use nmvs_messages::{PendingLine, READ_SIZE};
use nmvs_stream::cut_line;
use std::mem;

/// The bytes of a side that were not handed over: the line that it began, and after it the bytes that were not looked at.
#[derive(Drop)]
pub(crate) struct Incoming {
    begun: PendingLine,
    unread: ArrayVec<u8, READ_SIZE>,
}

impl Incoming {
    /// The state of a side that sent nothing.
    pub(crate) fn new() -> Incoming
        ensures waits { Waits [] [] result }
        ensures empty { result.unread.items ≡ [] }
    {
        Incoming {
            begun: PendingLine::new(),
            unread: ArrayVec::new(),
        }
    }

    /// Whether all bytes were looked at, so that more may be read.
    pub(crate) fn is_looked_through(&self) -> bool
        ensures { result ≡ (length self.now.unread.items == 0) }
    {
        self.unread.is_empty()
    }

    /// Adds the next bytes of the side.
    pub(crate) fn extend(&mut self, bytes: &[u8])
        requires looked_through { self.old.unread.items ≡ [] }
        requires fits { length bytes.now ≤ READ_SIZE }
        ensures { (sent : List ℕ) (handed : List (List ℕ)) → Waits sent handed self.old → Waits (sent ++ bytes.now) handed self.new }
    {
        self.unread.try_extend_from_slice(bytes).unwrap();
    }

    /// Hands over the kept part of the next line of the side, without its LF. It returns `None` after all bytes were looked
    /// through.
    pub(crate) fn next_line(&mut self) -> Option<PendingLine>
        ensures next { (sent : List ℕ) (handed : List (List ℕ)) → Waits sent handed self.old → IfSome result
            (λ line. (whole : List ℕ) × (line ≡ kept_part whole) × Waits sent (handed ++ whole ∷ []) self.new) }
        ensures all { (sent : List ℕ) (handed : List (List ℕ)) → Waits sent handed self.old → IfNone result
            ((handed ≡ input_lines sent) × Waits sent handed self.new) }
        ensures looked_through { IfNone result (self.new.unread.items ≡ []) }
    {
        match cut_line(self.unread.as_slice()) {
            Some((tail, _)) => {
                let count = tail.len() + 1;
                self.begun.extend(tail);
                self.pass(count);
                Some(mem::replace(&mut self.begun, PendingLine::new()))
            }
            None => {
                self.begun.extend(self.unread.as_slice());
                self.unread.clear();
                None
            }
        }
    }

    /// Drops this number of bytes at the front, which were looked at.
    fn pass(&mut self, count: usize)
        requires { count ≤ length self.old.unread.items }
        ensures unread { self.new.unread.items ≡ drop count self.old.unread.items }
        ensures begun { self.new.begun ≡ self.old.begun }
    {
        self.unread.drain(..count);
    }

    /// Hands over the kept part of the line that the side began and did not end, once all its bytes are looked through.
    pub(crate) fn take_begun(&mut self) -> PendingLine
        ensures begun { (sent : List ℕ) (handed : List (List ℕ)) → Waits sent handed self.old → self.old.unread.items ≡ []
            → result ≡ kept_part (unfinished_line sent) }
        ensures none_left { self.new.begun ≡ [] }
        ensures unread { self.new.unread ≡ self.old.unread }
    {
        mem::replace(&mut self.begun, PendingLine::new())
    }
}
