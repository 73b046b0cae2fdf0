//! Short texts.
ghost use Rattle.std.specs.Prelude.{◌≡◌, ◌<◌, ◌≤◌, IsUtf8, length, nat_eq, refl, Some};
ghost use Rattle.std.specs.Ordering.{nat_cmp};
ghost use Rattle.std.specs.Cmp.{on_equiv, on_total, on_po, on_per, partial_equiv_from_equiv};
ghost use Rattle.std.specs.Cmp.Lexicographic.{pointwise, slice_cmp, nat_list_eq_equiv, nat_list_cmp_total, texts_po, texts_ties};
ghost use Rattle.std.specs.Cmp.Rules.{hashing};
ghost use Rattle.std.specs.Hash as fed;
ghost use Rattle.std.proofs.Common.{rules};

use std::cmp::Ordering;
use std::hash::{Hash, Hasher};
use std::marker::Model;
use std::str;

/// The most bytes of a serial number, a batch number or a name (GS1 General Specifications, sections 3.4.1 and 3.5.2; for
/// names own).
pub(crate) const LONGEST_TEXT: usize = 20;

/// A text of at most `CAP` bytes, which lie in the value itself, with zeros after them.
///
/// Its length takes one byte and not a word, so that an entry of a trail and the record of a pack stay small.
#[derive(Clone, Copy)]
pub(crate) struct ShortText<const CAP: usize> {
    cells: [u8; CAP],
    len: u8,
}

impl<const CAP: usize> Model for ShortText<CAP> {
    ghost use Rattle.std.specs.Prelude.{◌-◌, ◌++◌, length, take, replicate};
    ghost use Rattle.nmvs_identifier.specs.Texts.{Text, IsShortText};
    ghost use Rattle.std.proofs.Common.{arith, ap, sym, ◌∙◌, take-append-drop, length-take-le};

    ghost Value = { Text };

    ghost view = { λ s. record { bytes = take s.len s.cells } };

    ghost invariant = { λ s. IsShortText CAP s.len s.cells };

    ghost inverse = { λ t. record { cells = t.bytes ++ replicate (CAP - length t.bytes) 0; len = length t.bytes } };

    ghost inverse_ok = { λ s h i. record {
      cells = (ap (λ n. take s.len s.cells ++ replicate (CAP - n) 0) (length-take-le s.len s.cells (omega (arith, h.fits, h.whole)))
          ∙ ap (λ zeros. take s.len s.cells ++ zeros) (sym h.zeros)
          ∙ take-append-drop s.len s.cells) i;
      len = length-take-le s.len s.cells (omega (arith, h.fits, h.whole)) i;
    } };
}

impl<const CAP: usize> ShortText<CAP> {
    /// A copy of a text.
    pub fn from(text: &str) -> Self
        requires fits { length text.now ≤ CAP }
        requires short { CAP < 256 }
        ensures { result.bytes ≡ text.now }
    {
        let mut cells = [0; CAP];
        cells[..text.len()].copy_from_slice(text.as_bytes());
        ShortText {
            cells,
            len: text.len() as u8,
        }
    }

    /// The bytes of the text.
    pub fn as_bytes(&self) -> &[u8]
        ensures { result.now ≡ self.now.bytes }
    {
        &self.cells[..self.len as usize]
    }

    /// The text.
    pub fn as_str(&self) -> &str
        ensures { result.now ≡ self.now.bytes }
    {
        // The bytes are proved to be UTF-8, so no run checks it.
        unsafe { str::from_utf8_unchecked(&self.cells[..self.len as usize]) }
    }
}

impl<const CAP: usize> PartialEq for ShortText<CAP> {
    ghost eq = { λ s t. pointwise nat_eq s.bytes t.bytes };

    ghost laws = { on_per (λ s. s.bytes) (partial_equiv_from_equiv nat_list_eq_equiv) };

    fn eq(&self, other: &Self) -> bool {
        // It compares all cells, because zeros follow both texts, and a fixed number is compared faster.
        self.len == other.len && self.cells == other.cells
    }
}

impl<const CAP: usize> Eq for ShortText<CAP> {
    ghost laws = { on_equiv (λ s. s.bytes) nat_list_eq_equiv };
}

impl<const CAP: usize> PartialOrd for ShortText<CAP> {
    ghost partial_cmp = { λ s t. Some (slice_cmp nat_cmp s.bytes t.bytes) };

    ghost laws = { on_po (λ s. s.bytes) texts_po };

    fn partial_cmp(&self, other: &Self) -> Option<Ordering> {
        Some(self.cmp(other))
    }
}

impl<const CAP: usize> Ord for ShortText<CAP> {
    ghost cmp = { λ s t. slice_cmp nat_cmp s.bytes t.bytes };

    ghost total = { on_total (λ s. s.bytes) nat_list_cmp_total };

    ghost matches_partial_cmp = { λ s t. refl };

    ghost matches_eq = { λ s t. texts_ties s.bytes t.bytes };

    fn cmp(&self, other: &Self) -> Ordering {
        self.as_bytes().cmp(other.as_bytes())
    }
}

impl<const CAP: usize> Hash for ShortText<CAP> {
    ghost hash_input = { λ s. fed.str s.bytes };

    ghost respects_eq = { Prim.search (hashing, rules) };

    // The same as for a `str`.
    fn hash<H: Hasher>(&self, state: &mut H) {
        state.write(self.as_bytes());
        state.write_u8(0xff);
    }
}
