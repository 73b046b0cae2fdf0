//! What an act is about.
ghost use Rattle.std.specs.Prelude.{◌≡◌};
ghost use Rattle.nmvs_cases.specs.Cases as cases;
ghost use Rattle.nmvs_cases.specs.Hints as hints;

use crate::Hint;
use nmvs_identifier::ProductCode;

/// The hints of the alerts that an act is about.
#[derive(Clone, Copy)]
pub enum Hinted {
    /// Any, or none.
    Any,
    /// This one, or none if it is `None`.
    Only(Option<Hint>),
}

impl Hinted {
    /// Whether an alert with this hint, or with none, is one of these.
    pub fn has(self, hint: Option<Hint>) -> bool
        ensures { result ≡ cases.is_hinted self hint }
    {
        match (self, hint) {
            (Hinted::Any, _) | (Hinted::Only(None), None) => true,
            (Hinted::Only(Some(wanted)), Some(hint)) => wanted.word() == hint.word(),
            _ => false,
        }
    }

    /// What stands for these hints: `*` for any, `-` for none, or the word of the hint.
    pub fn word(self) -> &'static str
        ensures { result.now ≡ hints.hinted_word self }
    {
        match self {
            Hinted::Any => "*",
            Hinted::Only(None) => "-",
            Hinted::Only(Some(hint)) => hint.word(),
        }
    }

    /// The hints for which this word stands.
    pub fn named(word: &str) -> Option<Hinted>
        ensures { result ≡ hints.hinted_named word.now }
    {
        match word {
            "*" => Some(Hinted::Any),
            "-" => Some(Hinted::Only(None)),
            _ => Some(Hinted::Only(Some(Hint::named(word)?))),
        }
    }
}

/// The flagged alerts that one act is about: those on a product code with a number from `first` to `last` that have this hint.
#[derive(Clone, Copy)]
pub struct Range {
    pub code: ProductCode,
    pub first: u64,
    pub last: u64,
    pub hinted: Hinted,
}

impl Range {
    /// Whether an act on the range is about the flagged alert on this product code with this number, which has this hint.
    pub fn has(&self, code: &ProductCode, number: u64, hint: Option<Hint>) -> bool
        ensures { result ≡ cases.has self.now code.now number hint }
    {
        self.code == *code && self.first <= number && number <= self.last && self.hinted.has(hint)
    }
}
