//! The refusals of bodies of JSON.
ghost use Rattle.std.specs.Prelude.{◌≡◌, ◌++◌, IfOk, OnOk};
ghost use Rattle.nmvs_json.specs.Refusals as specs;

use crate::QuestionFault;
use itoa::Buffer;
use std::alloc::{AllocError, Allocator};

/// The bytes that the problem of a refusal has room for (own).
const ROOM: usize = 384;

/// A member of a body.
#[derive(Clone, Copy)]
pub enum Member {
    User,
    Code,
    Serial,
    Batch,
    Expiry,
    Scan,
    Scanned,
    IfScanned,
    Ask,
    Key,
    Questions,
}

/// The refusal of a question or of a bulk.
#[derive(Clone, Copy)]
pub struct Refusal {
    pub fault: QuestionFault,
    /// The number of the first question that has a fault, counted from 0, in a bulk.
    pub item: Option<usize>,
    /// The first member that is missing or has a wrong value. There is none if another member is too many.
    pub member: Option<Member>,
}

impl From<QuestionFault> for Refusal {
    ghost use Rattle.std.specs.Prelude.{◌≡◌};
    ghost use Rattle.nmvs_json.specs.Refusals.{whole};

    ghost from_gives = { λ fault refusal. refusal ≡ whole fault };

    fn from(fault: QuestionFault) -> Refusal {
        Refusal::whole(fault)
    }
}

impl From<AllocError> for Refusal {
    ghost use Rattle.std.specs.Prelude.{◌≡◌};
    ghost use Rattle.nmvs_json.specs.declared.question_fault.QuestionFault.TheVariants.{Memory};
    ghost use Rattle.nmvs_json.specs.Refusals.{whole};

    ghost from_gives = { λ _ refusal. refusal ≡ whole Memory };

    fn from(_refused: AllocError) -> Refusal {
        Refusal::whole(QuestionFault::Memory)
    }
}

impl Refusal {
    /// The refusal of a whole body for this fault.
    pub fn whole(fault: QuestionFault) -> Refusal
        ensures { result ≡ specs.whole fault }
    {
        Refusal {
            fault,
            item: None,
            member: None,
        }
    }
}

impl Member {
    /// The name.
    pub fn name(self) -> &'static str
        ensures { result.now ≡ specs.member_name self }
    {
        match self {
            Member::User => "user",
            Member::Code => "code",
            Member::Serial => "serial",
            Member::Batch => "batch",
            Member::Expiry => "expiry",
            Member::Scan => "scan",
            Member::Scanned => "scanned",
            Member::IfScanned => "if_scanned",
            Member::Ask => "ask",
            Member::Key => "key",
            Member::Questions => "questions",
        }
    }
}

/// The problem of a refusal (RFC 9457).
///
/// # Errors
///
/// There is no memory for it.
#[tactic(auto, unfolding(crate::specs::Refusals::refusal_text))]
pub fn refusal_body<A: Allocator>(alloc: A, refusal: Refusal) -> Result<Vec<u8, A>, AllocError>
    ensures { IfOk result (λ body. body.items ≡ specs.refusal_text refusal) }
{
    let mut body = Vec::with_capacity(alloc, ROOM)?;
    body.extend_from_slice(front_of(refusal.fault))?;
    push_item(&mut body, refusal.item)?;
    push_member(&mut body, refusal.member)?;
    body.extend_from_slice(b"}\n")?;
    Ok(body)
}

/// The problem of a fault up to the place of the fault.
#[tactic(auto, unfolding(crate::specs::Refusals::front_of))]
fn front_of(fault: QuestionFault) -> &'static [u8]
    ensures { result.now ≡ specs.front_of fault }
{
    match fault {
        QuestionFault::Key =>
            b"{\"type\":\"/problems#KEY\",\"title\":\"Bad Request\",\"status\":400,\
            \"detail\":\"A key is 1 to 40 letters, digits, dots, underscores and hyphens, a letter or digit first. A question has one at most.\",\"fault\":\"KEY\",\"recorded\":\"no\"",
        QuestionFault::Json =>
            b"{\"type\":\"/problems#JSON\",\"title\":\"Bad Request\",\"status\":400,\
            \"detail\":\"The body is no JSON object, or an object in it has a member twice.\",\"fault\":\"JSON\",\"recorded\":\"no\"",
        QuestionFault::Fields =>
            b"{\"type\":\"/problems#FIELDS\",\"title\":\"Bad Request\",\"status\":400,\
            \"detail\":\"A member is missing, unknown or of another type, or a value is empty or has a character outside ! to ~.\",\"fault\":\"FIELDS\",\"recorded\":\"no\"",
        QuestionFault::Memory => b"",
    }
}

/// Puts the number of a question in a bulk at the end of a problem.
fn push_item<A: Allocator>(body: &mut Vec<u8, A>, item: Option<usize>) -> Result<(), AllocError>
    ensures { OnOk result (body.new.items ≡ body.old.items ++ specs.item_text item) }
{
    let Some(number) = item else {
        return Ok(());
    };
    let mut digits = Buffer::new();
    body.extend_from_slice(b",\"item\":")?;
    body.extend_from_slice(digits.format(number).as_bytes())
}

/// Puts the name of a member at the end of a problem.
fn push_member<A: Allocator>(
    body: &mut Vec<u8, A>,
    member: Option<Member>,
) -> Result<(), AllocError>
    ensures { OnOk result (body.new.items ≡ body.old.items ++ specs.member_text member) }
{
    let Some(member) = member else {
        return Ok(());
    };
    body.extend_from_slice(b",\"member\":\"")?;
    body.extend_from_slice(member.name().as_bytes())?;
    body.extend_from_slice(b"\"")
}
