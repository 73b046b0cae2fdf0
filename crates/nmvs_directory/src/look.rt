use nmvs_rules::Enrolment;

/// The answer of a window about a user.
#[derive(Clone, Copy, PartialEq, Eq)]
pub enum Look {
    /// No change named the user, or the last one that did removed it.
    Nobody,
    /// The last change that named the user suspended it.
    Suspended,
    /// The last change that named the user enrolled it so. The directory has no clock: whether the enrolment has ended is the
    /// caller's to judge.
    Known(Enrolment),
    /// The registrar is gone, so the published users cannot be read; or they lack a change that the window had seen or
    /// learned of. No clause excludes the latter, and no run has met it.
    Closed,
}
