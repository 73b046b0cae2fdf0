//! The room for one piece of a list.
ghost use Rattle.std.specs.Prelude.{◌≡◌, ◌≤◌, ◌+◌, ◌*◌, ◌++◌, [], IfOk, length, vec_len, vec_capacity};
ghost use Rattle.nmvs_line.specs.Export.{ended_line, export_text};

use nmvs_line::{EntryLine, LONGEST_LINE, put_entry_line};
use nmvs_rules::Entry;
use std::alloc::{AllocError, Global};

/// The most lines of a list that are fetched and written together (own).
pub const PIECE: usize = 32;

/// The most bytes of one piece of a list: each line may be as long as an entry's with its LF.
pub const PIECE_BYTES: usize = PIECE * (LONGEST_LINE + 1);

/// The room for one piece of a list: for its entries, if it has some, and for the text of its lines.
#[derive(Drop)]
pub struct Piece {
    pub entries: Vec<Entry>,
    pub text: Vec<u8>,
    ghost entries_fit: { vec_capacity entries ≡ 32 },
    ghost text_fits: { 32_032 ≤ vec_capacity text },
    ghost text_within: { vec_len text ≤ 32_032 },
}

impl Piece {
    /// The room for a piece, with nothing in it.
    ///
    /// # Errors
    ///
    /// There is no memory.
    pub fn new(alloc: Global) -> Result<Piece, AllocError>
        ensures { IfOk result (λ piece. piece.text.items ≡ []) }
    {
        let entries = Vec::with_capacity(alloc, PIECE)?;
        let text = Vec::with_capacity(alloc, PIECE_BYTES)?;
        Ok(Piece { entries, text })
    }

    /// Composes the lines of the entries, each with LF, in place of the text.
    pub fn word_entries(&mut self)
        ensures text { self.new.text.items ≡ export_text self.old.entries.items }
        ensures entries { self.new.entries.items ≡ self.old.entries.items }
    {
        self.text.clear();
        push_lines(&mut self.text, self.entries.as_slice());
    }
}

/// Adds the lines of entries, each with LF. There is room for them.
pub(crate) fn push_lines(bytes: &mut Vec<u8>, entries: &[Entry])
    requires { vec_len bytes.old + length entries.now * (LONGEST_LINE + 1) ≤ vec_capacity bytes.old }
    ensures items { bytes.new.items ≡ bytes.old.items ++ export_text entries.now }
    ensures len { vec_len bytes.new ≤ vec_len bytes.old + length entries.now * (LONGEST_LINE + 1) }
    ensures capacity { vec_capacity bytes.old ≤ vec_capacity bytes.new }
{
    let mut line = EntryLine::new();
    let mut rest = entries;
    while let Some((entry, later)) = rest.split_first() {
        push_line(bytes, &mut line, entry);
        rest = later;
    }
}

/// Adds the line of an entry, with LF. There is room for it. It composes the line in place of the one before.
fn push_line(bytes: &mut Vec<u8>, line: &mut EntryLine, entry: &Entry)
    requires { vec_len bytes.old + (LONGEST_LINE + 1) ≤ vec_capacity bytes.old }
    ensures items { bytes.new.items ≡ bytes.old.items ++ ended_line entry.now }
    ensures len { vec_len bytes.new ≤ vec_len bytes.old + (LONGEST_LINE + 1) }
    ensures capacity { vec_capacity bytes.old ≤ vec_capacity bytes.new }
{
    put_entry_line(line, entry);
    let _line = bytes.extend_from_slice(line.as_str().as_bytes());
    let _line_feed = bytes.push(b'\n');
}
