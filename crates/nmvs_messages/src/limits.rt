//! The limits of lines and sessions.

/// The most bytes of a line, without its LF (own).
pub const LONGEST_LINE: usize = 200;

/// The most bytes of one read of a session (own).
pub const READ_SIZE: usize = 4096;

/// The most lines that a session without a connection may have answered (own).
pub const MOST_LINES: u64 = 10_000;

/// The most reads of a session without a connection (own).
pub const MOST_READS: u64 = 4_000_000;

/// The limits of a session.
#[derive(Clone, Copy)]
pub struct Limits {
    /// The most lines that are answered.
    pub lines: u64,
    /// The most reads that are made.
    pub reads: u64,
}

/// The limits of a session without a connection (own).
pub const SESSION_LIMITS: Limits = Limits {
    lines: MOST_LINES,
    reads: MOST_READS,
};

/// The limits of a connection's session and of the registrar's commands: none (own).
pub const NO_LIMITS: Limits = Limits {
    lines: u64::MAX,
    reads: u64::MAX,
};
