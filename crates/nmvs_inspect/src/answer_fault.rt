use nmvs_stream::Failed;
use std::alloc::AllocError;
use thiserror::Error;

/// The fault of an answer that was not written to its end (own).
#[derive(Clone, Copy, Debug, Error)]
pub enum AnswerFault {
    #[error("out of memory")]
    Memory,
    #[error("the answer cannot be written")]
    Write,
}

impl From<AllocError> for AnswerFault {
    fn from(_: AllocError) -> AnswerFault {
        AnswerFault::Memory
    }
}

impl From<Failed> for AnswerFault {
    fn from(_: Failed) -> AnswerFault {
        AnswerFault::Write
    }
}
