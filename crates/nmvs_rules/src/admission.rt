//! The questions that each role may ask. Each `match` on a role names all of them, so a new role does not compile until
//! it is decided here.
ghost use Rattle.std.specs.Prelude.{◌≡◌};
ghost use Rattle.nmvs_rules.specs.Questions.{may_ask, may_report, may_decommission, is_handler, is_supplier, is_holder, is_authority};

use crate::{PackQuestion, Question, Reason, Role};

/// Whether a user in this role may ask the question (own, after Articles 22, 25, 36 and 40).
pub fn may(role: Role, question: &Question) -> bool
    ensures { result ≡ may_ask role question.now }
{
    match question {
        Question::Upload { .. } | Question::OfBatch(_, _, _) => is_holder(role),
        Question::OfPack(asked, _) => match asked {
            PackQuestion::Theft => is_holder(role),
            PackQuestion::Verify | PackQuestion::Revert => is_handler(role),
            PackQuestion::Decommission(reason) => may_decommission(role, *reason),
            PackQuestion::Handover => is_supplier(role),
            PackQuestion::Status => true,
            PackQuestion::Audit => is_authority(role),
        },
    }
}

/// Whether a user in this role gets the report of a product code (own, after Articles 36 and 39). A report is no
/// question of a trail.
pub fn may_report(role: Role) -> bool
    ensures { result ≡ may_report role }
{
    is_authority(role)
}

fn may_decommission(role: Role, reason: Reason) -> bool
    ensures { result ≡ may_decommission role reason }
{
    match role {
        Role::Manufacturer => {
            matches!(reason, Reason::Export | Reason::Sample | Reason::Destroy)
        }
        Role::Wholesaler => matches!(
            reason,
            Reason::Hold | Reason::Export | Reason::Sample | Reason::Destroy
        ),
        Role::Pharmacy => matches!(
            reason,
            Reason::Supply | Reason::Hold | Reason::Sample | Reason::Destroy
        ),
        Role::Holder | Role::Authority => false,
    }
}

fn is_handler(role: Role) -> bool
    ensures { result ≡ is_handler role }
{
    match role {
        Role::Manufacturer | Role::Wholesaler | Role::Pharmacy => true,
        Role::Holder | Role::Authority => false,
    }
}

fn is_supplier(role: Role) -> bool
    ensures { result ≡ is_supplier role }
{
    match role {
        Role::Pharmacy => true,
        Role::Holder | Role::Manufacturer | Role::Wholesaler | Role::Authority => false,
    }
}

fn is_holder(role: Role) -> bool
    ensures { result ≡ is_holder role }
{
    match role {
        Role::Holder => true,
        Role::Manufacturer | Role::Wholesaler | Role::Pharmacy | Role::Authority => false,
    }
}

fn is_authority(role: Role) -> bool
    ensures { result ≡ is_authority role }
{
    match role {
        Role::Authority => true,
        Role::Holder | Role::Manufacturer | Role::Wholesaler | Role::Pharmacy => false,
    }
}
