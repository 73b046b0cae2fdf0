//! The kinds of questions, their names and their paths.
ghost use Rattle.std.specs.Prelude.{◌≡◌, ◌+◌, find, map, option_map};
ghost use Rattle.std.specs.Str.{bytes_eq};
ghost use Rattle.nmvs_json.specs.Questions as specs;

use crate::refusal::Member;
use nmvs_rules::PackQuestion;
use nmvs_words::{QUESTIONS, QuestionKind};

/// The kind of a question or report, without its user and its fields.
#[derive(Clone, Copy)]
pub enum AskedKind {
    Question(QuestionKind),
    Report,
}

impl AskedKind {
    /// The kind at this path, if there is one.
    pub fn at(path: &str) -> Option<AskedKind>
        ensures { result ≡ specs.asked_at path.now }
    {
        match path.as_bytes() {
            [b'/', b'v', b'1', b'/', name @ ..] => AskedKind::named(name),
            _ => None,
        }
    }

    /// The kind of this name, if there is one: the word of a question in small letters, or `report`.
    #[tactic(auto, unfolding(crate::specs::Questions::kind_named))]
    pub(crate) fn named(name: &[u8]) -> Option<AskedKind>
        ensures { result ≡ specs.kind_named name.now }
    {
        match in_small_letters(&QUESTIONS, name) {
            Some(kind) => Some(AskedKind::Question(kind)),
            None if name == b"report".as_slice() => Some(AskedKind::Report),
            None => None,
        }
    }

    /// Whether the answer is a list.
    pub(crate) fn has_list(self) -> bool
        ensures { result ≡ specs.has_list self }
    {
        matches!(
            self,
            AskedKind::Report | AskedKind::Question(QuestionKind::OfPack(PackQuestion::Audit))
        )
    }

    /// Whether a question asks about a pack.
    pub(crate) fn is_of_pack(self) -> bool
        ensures { result ≡ specs.is_of_pack self }
    {
        matches!(self, AskedKind::Question(QuestionKind::OfPack(_)))
    }

    /// The word of the line.
    pub(crate) fn word(self) -> &'static str
        ensures { result.now ≡ specs.word_of self }
    {
        match self {
            AskedKind::Question(kind) => kind.word(),
            AskedKind::Report => "REPORT",
        }
    }

    /// The members after the user, in the order in which the line has their texts.
    pub(crate) fn members(self) -> &'static [Member]
        ensures { result.now ≡ specs.members_of self }
    {
        match self {
            AskedKind::Question(QuestionKind::Upload) => {
                &[Member::Code, Member::Serial, Member::Batch, Member::Expiry]
            }
            AskedKind::Question(QuestionKind::OfPack(_)) => &[Member::Code, Member::Serial],
            AskedKind::Question(QuestionKind::OfBatch(_)) => &[Member::Code, Member::Batch],
            AskedKind::Report => &[Member::Code],
        }
    }
}

/// The value of the row whose word in small letters is this name.
fn in_small_letters<T: Copy>(rows: &[(&str, T)], name: &[u8]) -> Option<T>
    ensures { result ≡ option_map (λ row. row.1) (find (λ row. bytes_eq name.now (map (λ b. b + 32) row.0.now)) rows.now) }
{
    for (word, value) in rows {
        if is_small(name, word.as_bytes()) {
            return Some(*value);
        }
    }
    None
}

/// Whether a name is a word in small letters.
fn is_small(name: &[u8], word: &[u8]) -> bool
    ensures { result ≡ bytes_eq name.now (map (λ b. b + 32) word.now) }
{
    let mut name = name;
    let mut word = word;
    while let ([small, name_rest @ ..], [letter, word_rest @ ..]) = (name, word) {
        if small.checked_sub(32) != Some(*letter) {
            return false;
        }
        name = name_rest;
        word = word_rest;
    }
    name.is_empty() && word.is_empty()
}
