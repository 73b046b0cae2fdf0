use nmvs_identifier::Name;
use nmvs_rules::Enrolment;

/// A change of the directory: the user, and the effect on it.
#[derive(Clone, Copy)]
pub struct Change {
    pub user: Name,
    pub effect: Effect,
}

/// The effect of a change on its user (own).
#[derive(Clone, Copy)]
pub enum Effect {
    /// The user is enrolled so.
    Enrol(Enrolment),
    /// The user is suspended.
    Suspend,
    /// The user is nobody.
    Remove,
}
