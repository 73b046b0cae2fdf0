//! Cases: what is known of an alert.
ghost use Rattle.std.specs.Prelude.{◌≡◌};
ghost use Rattle.nmvs_cases.specs.Cases as cases;

use crate::{Act, Reader, Verdict, Whom};
use nmvs_identifier::Name;

/// Who was informed of a confirmed falsification.
#[derive(Clone, Copy)]
pub struct Informed {
    pub authority: bool,
    pub agency: bool,
    pub commission: bool,
}

/// What is known of a flagged alert. Each starts open.
#[derive(Clone, Copy)]
pub enum Case {
    Open,
    /// This user looks at it.
    Taken(Name),
    Closed(Verdict),
    /// The pack is falsified.
    Confirmed(Informed),
}

impl Case {
    /// The case after an act of a user who reads as this. There is none if the user may not do it, or not in this state.
    pub fn after(&self, act: Act, reader: Reader, user: &Name) -> Option<Case>
        ensures { result ≡ cases.after self.now act reader user.now }
    {
        match act {
            Act::Note => Some(*self),
            Act::Take => self.taken(reader, user),
            Act::Leave => self.left(reader, user),
            Act::Close(verdict) => self.closed(verdict, reader),
            Act::Confirm => self.confirmed(reader),
            Act::Inform(whom) => self.informed(whom, reader),
            Act::Reopen => self.reopened(reader),
        }
    }

    /// Whether the case stands in the list of work: it is open, taken, or confirmed and not all are informed (Article 37(d)).
    pub fn is_listed(&self) -> bool
        ensures { result ≡ cases.is_listed self.now }
    {
        match self {
            Case::Open | Case::Taken(_) => true,
            Case::Closed(_) => false,
            Case::Confirmed(informed) => !are_all(informed),
        }
    }

    fn taken(&self, reader: Reader, user: &Name) -> Option<Case>
        ensures { result ≡ cases.taken self.now reader user.now }
    {
        match (self, reader) {
            (Case::Open, Reader::Officer | Reader::Authority) => Some(Case::Taken(*user)),
            (Case::Taken(by), Reader::Officer | Reader::Authority) if *by != *user => {
                Some(Case::Taken(*user))
            }
            _ => None,
        }
    }

    fn left(&self, reader: Reader, user: &Name) -> Option<Case>
        ensures { result ≡ cases.left self.now reader user.now }
    {
        match (self, reader) {
            (Case::Taken(_), Reader::Authority) => Some(Case::Open),
            (Case::Taken(by), Reader::Officer) if *by == *user => Some(Case::Open),
            _ => None,
        }
    }

    fn closed(&self, verdict: Verdict, reader: Reader) -> Option<Case>
        ensures { result ≡ cases.closed self.now verdict reader }
    {
        match (self, reader) {
            (Case::Open | Case::Taken(_), Reader::Officer | Reader::Authority) => {
                Some(Case::Closed(verdict))
            }
            _ => None,
        }
    }

    fn confirmed(&self, reader: Reader) -> Option<Case>
        ensures { result ≡ cases.confirmed self.now reader }
    {
        match (self, reader) {
            (Case::Open | Case::Taken(_) | Case::Closed(_), Reader::Authority) => {
                Some(Case::Confirmed(Informed {
                    authority: false,
                    agency: false,
                    commission: false,
                }))
            }
            _ => None,
        }
    }

    fn informed(&self, whom: Whom, reader: Reader) -> Option<Case>
        ensures { result ≡ cases.informed self.now whom reader }
    {
        match (self, reader) {
            (Case::Confirmed(informed), Reader::Officer | Reader::Authority) => {
                Some(Case::Confirmed(with_one_more(informed, whom)))
            }
            _ => None,
        }
    }

    fn reopened(&self, reader: Reader) -> Option<Case>
        ensures { result ≡ cases.reopened self.now reader }
    {
        match (self, reader) {
            (Case::Closed(_), Reader::Officer | Reader::Authority)
            | (Case::Confirmed(_), Reader::Authority) => Some(Case::Open),
            _ => None,
        }
    }
}

/// Whether those whom the Article names are all informed.
fn are_all(informed: &Informed) -> bool
    ensures { result ≡ cases.are_all informed.now }
{
    informed.authority && informed.agency && informed.commission
}

fn with_one_more(informed: &Informed, whom: Whom) -> Informed
    ensures { result ≡ cases.with_one_more informed.now whom }
{
    let mut informed = *informed;
    match whom {
        Whom::Authority => informed.authority = true,
        Whom::Agency => informed.agency = true,
        Whom::Commission => informed.commission = true,
        Whom::Holder => {}
    }
    informed
}
