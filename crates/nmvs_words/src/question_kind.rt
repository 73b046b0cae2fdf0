//! Kinds of questions.
ghost use Rattle.std.specs.Prelude.{◌≡◌, Some, map, slice_get};
ghost use Rattle.nmvs_words.specs.Kinds.{kind_of, kind_word, kind_named};

use self::QuestionKind::{OfBatch, OfPack, Upload};
use crate::row::named;
use nmvs_rules::PackQuestion::{self, Decommission};
use nmvs_rules::{BatchQuestion, Question, Reason};

/// A question without the values that it names. Each kind has a word, and the variant decides which values follow it.
#[derive(Clone, Copy)]
pub enum QuestionKind {
    Upload,
    OfPack(PackQuestion),
    OfBatch(BatchQuestion),
}

/// The kinds of questions, each with its word and its source; the words are own.
pub const QUESTIONS: [(&str, QuestionKind); 14] = [
    ("UPLOAD", Upload), // Article 33
    ("VERIFY", OfPack(PackQuestion::Verify)), // Article 11
    ("STATUS", OfPack(PackQuestion::Status)), // Article 36
    ("SUPPLY", OfPack(Decommission(Reason::Supply))), // Article 25(1)
    ("HOLD", OfPack(Decommission(Reason::Hold))), // Articles 22(e), 23 and 25(2)
    ("EXPORT", OfPack(Decommission(Reason::Export))), // Article 22(a)
    ("SAMPLE", OfPack(Decommission(Reason::Sample))), // Articles 22(d) and 25(4)(b)
    ("DESTROY", OfPack(Decommission(Reason::Destroy))), // Articles 22(c) and 25(4)(a)
    ("HANDOVER", OfPack(PackQuestion::Handover)), // own, after Article 25
    ("REVERT", OfPack(PackQuestion::Revert)), // Article 13
    ("THEFT", OfPack(PackQuestion::Theft)), // Article 40
    ("AUDIT", OfPack(PackQuestion::Audit)), // Articles 35, 36(i) and 37(f)
    ("RECALL", OfBatch(BatchQuestion::Recall)), // Article 40
    ("WITHDRAW", OfBatch(BatchQuestion::Withdraw)), // Article 40
];

impl QuestionKind {
    /// The kind of a question.
    pub fn of(question: &Question) -> QuestionKind
        ensures { result ≡ kind_of question.now }
    {
        match question {
            Question::Upload { .. } => Upload,
            Question::OfPack(asked, _) => OfPack(*asked),
            Question::OfBatch(asked, _, _) => OfBatch(*asked),
        }
    }

    /// Its place among [`QUESTIONS`].
    pub fn place(self) -> usize
        ensures { slice_get (map (λ row. row.0.now) QUESTIONS) result ≡ Some (kind_word self) }
    {
        match self {
            Upload => 0,
            OfPack(PackQuestion::Verify) => 1,
            OfPack(PackQuestion::Status) => 2,
            OfPack(Decommission(reason)) => 3 + reason as usize,
            OfPack(PackQuestion::Handover) => 8,
            OfPack(PackQuestion::Revert) => 9,
            OfPack(PackQuestion::Theft) => 10,
            OfPack(PackQuestion::Audit) => 11,
            OfBatch(batch) => 12 + batch as usize,
        }
    }

    /// The kind's word.
    pub fn word(self) -> &'static str
        ensures { result.now ≡ kind_word self }
    {
        QUESTIONS[self.place()].0
    }

    /// The kind that has this word.
    pub fn named(word: &str) -> Option<QuestionKind>
        ensures { result ≡ kind_named word.now }
    {
        named(&QUESTIONS, word.as_bytes())
    }
}
