//! A part of the product codes.
ghost use Rattle.std.specs.Prelude.{◌≡◌, ◌≤◌, IfSome, IfNone, drop};
ghost use Rattle.nmvs_parts.specs.Part as parts;

use memchr::memchr;
use nmvs_identifier::ProductCode;
use nmvs_line::LONGEST_LINE;
use nmvs_shard::shard_number;
use std::marker::Model;
use std::str;

/// A part of the product codes: those whose number has one remainder modulo the number of parts (own).
#[derive(Clone, Copy)]
pub struct Part {
    index: usize,
    count: usize,
}

impl Model for Part {
    ghost use Rattle.std.specs.Prelude.{◌<◌};
    ghost use Rattle.nmvs_parts.specs.Part.{PartView};

    ghost Value = { PartView };

    ghost view = { λ p. record { index = p.index; count = p.count } };

    ghost invariant = { λ p. p.index < p.count };

    ghost inverse = { λ v. record { index = v.index; count = v.count } };
}

impl Part {
    /// The part with this remainder, of this number of parts. None if no number has that remainder.
    pub fn new(index: usize, count: usize) -> Option<Part>
        ensures some { IfSome result (λ part. part ≡ record { index = index; count = count }) }
        ensures none { IfNone result (count ≤ index) }
    {
        if index >= count {
            return None;
        }
        Some(Part { index, count })
    }

    /// The remainder.
    pub fn index(&self) -> usize
        ensures { result ≡ self.now.index }
    {
        self.index
    }

    /// The number of parts.
    pub fn count(&self) -> usize
        ensures { result ≡ self.now.count }
    {
        self.count
    }

    /// Whether a line, given without its LF, is of a product code of another part. A line that is too long, or that has no product
    /// code where an entry's line has it, is each part's own.
    pub(crate) fn is_others(&self, line: &[u8]) -> bool
        ensures { result ≡ parts.is_others self.now line.now }
    {
        if line.len() > LONGEST_LINE {
            return false;
        }
        match code_in(line) {
            Some(code) => shard_number(&code, self.count) != self.index,
            None => false,
        }
    }
}

/// The product code that stands where an entry's line has it, if one stands there.
fn code_in(line: &[u8]) -> Option<ProductCode>
    ensures { result ≡ parts.code_in line.now }
{
    let Ok(text) = str::from_utf8(code_text(line)) else {
        return None;
    };
    ProductCode::read(text).ok()
}

/// The bytes where an entry's line has its product code.
#[tactic(auto, using(std::proofs::lemmas::List::take_min))]
fn code_text(line: &[u8]) -> &[u8]
    ensures { result.now ≡ parts.code_text line.now }
{
    let question = behind(b'[', skip(line, 1));
    let texts = skip(behind(b'"', skip(question, 1)), 2);
    &texts[..texts.len().min(14)]
}

/// The bytes after the first ones, of this number.
#[tactic(auto, using(std::proofs::lemmas::List::drop_min))]
fn skip(bytes: &[u8], count: usize) -> &[u8]
    ensures { result.now ≡ drop count bytes.now }
{
    &bytes[count.min(bytes.len())..]
}

/// The bytes after the first of this byte; none if it is not among them.
fn behind(byte: u8, bytes: &[u8]) -> &[u8]
    ensures { result.now ≡ parts.behind byte bytes.now }
{
    match memchr(byte, bytes) {
        Some(place) => &bytes[place + 1..],
        None => &bytes[..0],
    }
}
