ghost use Rattle.std.specs.Prelude.{◌≡◌, IsTrue};
ghost use Rattle.nmvs_rules.specs.Enrolments.{has_ended, may_upload, is_enrolment};

use crate::Actor;
use crate::circulation::is_past;
use nmvs_identifier::{Codes, Expiry, Moment, ProductCode};

/// The enrolment of a user (own, after Article 37(b)).
#[derive(Clone, Copy, PartialEq, Eq)]
pub struct Enrolment {
    pub actor: Actor,
    /// The last day, by UTC, on which the user may ask. Without one the enrolment does not end.
    pub until: Option<Expiry>,
    /// The products that the user may upload. Without them it may upload any.
    pub codes: Option<Codes>,
}

impl Enrolment {
    /// Whether the enrolment has ended at a moment.
    pub fn has_ended(&self, moment: Moment) -> bool
        ensures { result ≡ has_ended self.now.until moment }
    {
        match &self.until {
            None => false,
            Some(last) => is_past(last, moment),
        }
    }

    /// Whether a holder with this enrolment may upload a product.
    pub fn may_upload(&self, code: &ProductCode) -> bool
        ensures { result ≡ may_upload self.now.codes code.now }
    {
        match &self.codes {
            None => true,
            Some(codes) => codes.covers(code),
        }
    }

    /// Proves that the texts are in their grammars, and does nothing else.
    pub fn tell_grammar(&self)
        ensures { IsTrue (is_enrolment self.now) }
    {
        self.actor.tell_grammar();
        if let Some(last) = &self.until {
            last.tell_grammar();
        }
        if let Some(codes) = &self.codes {
            codes.tell_grammar();
        }
    }
}
