ghost use Rattle.std.specs.Prelude.{◌≡◌};
ghost use Rattle.nmvs_protocol.specs.Wordings.{wording_text};

use crate::replies::ShortLine;

/// The text of an answer in its two forms.
#[derive(Drop)]
pub(crate) enum Wording<'w> {
    /// A short text, composed in place.
    Composed(ShortLine),
    /// A text that the answer has.
    Lent(&'w str),
}

impl<'w> Wording<'w> {
    pub(crate) fn as_str(&self) -> &str
        ensures { result.now ≡ wording_text self.now }
    {
        match self {
            Wording::Composed(text) => text.as_str(),
            Wording::Lent(text) => text,
        }
    }
}
