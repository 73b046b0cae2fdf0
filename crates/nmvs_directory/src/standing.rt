ghost use Rattle.std.specs.Prelude.{◌≡◌};
ghost use Rattle.nmvs_directory.specs.Users.{standing_after};

use crate::Effect;
use nmvs_rules::Enrolment;

/// The standing of a user after the changes that name it.
#[derive(Clone, Copy, PartialEq, Eq)]
pub enum Standing {
    /// The last change enrolled it so.
    Enrolled(Enrolment),
    /// The last change suspended it; before, it was enrolled so, if it was.
    Suspended(Option<Enrolment>),
    /// The last change removed it.
    Removed,
}

impl Standing {
    /// The standing of a user after one more change, which has this effect.
    pub(crate) fn after(was: Option<Standing>, effect: Effect) -> Standing
        ensures { result ≡ standing_after was effect }
    {
        match (effect, was) {
            (Effect::Enrol(enrolment), _) => Standing::Enrolled(enrolment),
            (Effect::Remove, _) => Standing::Removed,
            (Effect::Suspend, None) => Standing::Suspended(None),
            (Effect::Suspend, Some(Standing::Enrolled(enrolment))) => Standing::Suspended(Some(
                enrolment,
            )),
            (Effect::Suspend, Some(Standing::Suspended(enrolment))) => Standing::Suspended(
                enrolment,
            ),
            (Effect::Suspend, Some(Standing::Removed)) => Standing::Suspended(None),
        }
    }
}
