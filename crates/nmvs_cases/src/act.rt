//! Acts on alerts, and who does them.
ghost use Rattle.std.specs.Prelude.{◌≡◌, option_map};
ghost use Rattle.nmvs_cases.specs.ActWords as words;

use crate::CaseText;

/// Who reads and acts.
#[derive(Clone, Copy)]
pub enum Reader {
    /// One of the operator's staff. The rules know no such role.
    Officer,
    /// A national competent authority.
    Authority,
    /// A user whose own entries or product codes these are.
    Owner,
}

/// What an alert came to without a falsification (own).
#[derive(Clone, Copy)]
pub enum Verdict {
    /// A fault of a system or a terminal.
    Technical,
    /// A fault in how a house works.
    Procedural,
    /// A pack of another market.
    Market,
}

impl Verdict {
    /// The word of the verdict.
    pub fn word(self) -> &'static str
        ensures { result.now ≡ words.verdict_word self }
    {
        match self {
            Verdict::Technical => "TECHNICAL",
            Verdict::Procedural => "PROCEDURAL",
            Verdict::Market => "MARKET",
        }
    }

    /// The verdict that has this word.
    pub fn named(word: &str) -> Option<Verdict>
        ensures { result ≡ words.verdict_named word.now }
    {
        match word {
            "TECHNICAL" => Some(Verdict::Technical),
            "PROCEDURAL" => Some(Verdict::Procedural),
            "MARKET" => Some(Verdict::Market),
            _ => None,
        }
    }
}

/// Who is informed of a confirmed falsification (Article 37(d)).
#[derive(Clone, Copy)]
pub enum Whom {
    Authority,
    /// The European Medicines Agency.
    Agency,
    Commission,
    /// The holder of the product code, of whom the Article does not speak.
    Holder,
}

impl Whom {
    /// The word of who is informed.
    pub fn word(self) -> &'static str
        ensures { result.now ≡ words.whom_word self }
    {
        match self {
            Whom::Authority => "AUTHORITY",
            Whom::Agency => "EMA",
            Whom::Commission => "COMMISSION",
            Whom::Holder => "HOLDER",
        }
    }

    /// Who has this word.
    pub fn named(word: &str) -> Option<Whom>
        ensures { result ≡ words.whom_named word.now }
    {
        match word {
            "AUTHORITY" => Some(Whom::Authority),
            "EMA" => Some(Whom::Agency),
            "COMMISSION" => Some(Whom::Commission),
            "HOLDER" => Some(Whom::Holder),
            _ => None,
        }
    }
}

/// An act on an alert (own).
#[derive(Clone, Copy)]
pub enum Act {
    Take,
    Leave,
    Note,
    Close(Verdict),
    /// Finds that the pack is falsified.
    Confirm,
    Inform(Whom),
    Reopen,
}

impl Act {
    /// The word of the act, without that of its verdict or of who is informed.
    pub fn word(self) -> &'static str
        ensures { result.now ≡ words.act_word self }
    {
        match self {
            Act::Take => "TAKE",
            Act::Leave => "LEAVE",
            Act::Note => "NOTE",
            Act::Close(_) => "CLOSE",
            Act::Confirm => "CONFIRM",
            Act::Inform(_) => "INFORM",
            Act::Reopen => "REOPEN",
        }
    }

    /// The word of the verdict of a closing, or of who is informed. Other acts have none.
    pub fn detail(self) -> Option<&'static str>
        ensures { option_map (λ t. t.now) result ≡ words.detail_word self }
    {
        match self {
            Act::Close(verdict) => Some(verdict.word()),
            Act::Inform(whom) => Some(whom.word()),
            _ => None,
        }
    }

    /// The act that has this word alone.
    pub fn named(word: &str) -> Option<Act>
        ensures { result ≡ words.act_named word.now }
    {
        match word {
            "TAKE" => Some(Act::Take),
            "LEAVE" => Some(Act::Leave),
            "NOTE" => Some(Act::Note),
            "CONFIRM" => Some(Act::Confirm),
            "REOPEN" => Some(Act::Reopen),
            _ => None,
        }
    }

    /// The act that has this word, and that of its verdict or of who is informed.
    pub fn named_with(word: &str, detail: &str) -> Option<Act>
        ensures { result ≡ words.act_named_with word.now detail.now }
    {
        match word {
            "CLOSE" => Some(Act::Close(Verdict::named(detail)?)),
            "INFORM" => Some(Act::Inform(Whom::named(detail)?)),
            _ => None,
        }
    }

    /// Whether a line has a text with the act, which may be empty.
    pub fn has_text(self) -> bool
        ensures { result ≡ words.has_text self }
    {
        !matches!(self, Act::Take | Act::Leave)
    }

    /// Whether the act takes this text: a note needs one, to take or to leave an alert has none, and any other act may have one.
    pub fn takes(self, text: &CaseText) -> bool
        ensures { result ≡ words.takes self text.now.bytes }
    {
        match self {
            Act::Take | Act::Leave => text.text().is_empty(),
            Act::Note => !text.text().is_empty(),
            _ => true,
        }
    }
}
