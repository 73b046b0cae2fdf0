//! The faults of questions of JSON.
use std::alloc::AllocError;

/// The fault of a refused question of JSON: the first of these that holds.
#[derive(Clone, Copy)]
pub enum QuestionFault {
    /// The key is no tag.
    Key,
    /// The body is no JSON object, or an object in it has a member twice.
    Json,
    /// A member is missing or unknown, or its value cannot be a field of the line.
    Fields,
    /// There is no memory. This fault may come before any other.
    Memory,
}

impl From<AllocError> for QuestionFault {
    ghost use Rattle.nmvs_json.specs.declared.question_fault.QuestionFault.TheVariants.{Memory};
    ghost use Rattle.std.specs.Prelude.{◌≡◌};

    ghost from_gives = { λ _ fault. fault ≡ Memory };

    fn from(_refused: AllocError) -> QuestionFault {
        QuestionFault::Memory
    }
}
