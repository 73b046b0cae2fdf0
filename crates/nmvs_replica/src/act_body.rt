//! The body of an act.
use crate::refusal::Refusal;
use json::{Error, Scratch, Value};
use nmvs_cases::{Act, Hinted, Range};
use nmvs_identifier::ProductCode;
use std::alloc::{AllocError, Global};
use std::str;

/// The number of members of a body.
const MEMBERS: usize = 7;

/// An act that is asked for.
#[derive(Drop)]
pub(crate) struct AskedAct {
    pub range: Range,
    pub act: Act,
    pub text: String,
}

/// The act that a body asks for. It is refused if it is no JSON object with the seven members, or a value is bad.
pub(crate) fn read_act(alloc: Global, body: &[u8]) -> Result<AskedAct, Refusal> {
    let Ok(body) = str::from_utf8(body) else {
        return Err(Refusal::Query);
    };
    let mut scratch = Scratch::new(alloc);
    let object = match Value::parse_strict(alloc, body, &mut scratch) {
        Ok(object) => object,
        Err(Error::OutOfMemory | Error::TooLong) => return Err(Refusal::Memory),
        Err(Error::Invalid | Error::DuplicateKey) => return Err(Refusal::Query),
    };
    let Some((range, act, text)) = read_members(&object) else {
        return Err(Refusal::Query);
    };
    match String::from_str(alloc, text) {
        Ok(text) => Ok(AskedAct { range, act, text }),
        Err(AllocError) => Err(Refusal::Memory),
    }
}

fn read_members<'t>(object: &Value<'t>) -> Option<(Range, Act, &'t str)> {
    if !has_seven(object) {
        return None;
    }
    let range = Range {
        code: ProductCode::read(text_of(object, "code")?).ok()?,
        first: object.get("first")?.as_u64()?,
        last: object.get("last")?.as_u64()?,
        hinted: Hinted::named(text_of(object, "hint")?)?,
    };
    let act = act_named(text_of(object, "act")?, text_of(object, "word")?)?;
    Some((range, act, text_of(object, "text")?))
}

fn has_seven(object: &Value<'_>) -> bool {
    match object {
        Value::Object(members) => members.len() == MEMBERS,
        _ => false,
    }
}

fn text_of<'t>(object: &Value<'t>, name: &str) -> Option<&'t str> {
    object.get(name)?.as_str()
}

/// The act of a name, with the word that CLOSE and INFORM have.
fn act_named(name: &str, word: &str) -> Option<Act> {
    if word.is_empty() {
        Act::named(name)
    } else {
        Act::named_with(name, word)
    }
}
