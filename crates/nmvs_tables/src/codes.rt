//! The table of product codes.
ghost use Rattle.std.specs.Prelude.{◌≡◌, ◌+◌, ◌<◌, ◌^◌, unwrap_or};
ghost use Rattle.indexmap.specs.IndexMap.{spare};
ghost use Rattle.nmvs_identifier.specs.ProductCode.{ProductCode};
ghost use Rattle.nmvs_tables.specs.Codes.{code_in, code_noted, code_after};

use crate::HashKey;
use crate::writes::{find, find_near, write};
use indexmap::IndexMap;
use nmvs_identifier::{Name, ProductCode};
use nmvs_rules::{Entry, Question, Reply};
use std::alloc::Allocator;

/// The record of a product code.
#[derive(Clone, Copy)]
pub(crate) struct CodeRecord {
    /// The authorisation of the first accepted upload.
    pub holder: Option<Name>,
    pub alerts: u64,
    /// The number of alerts that were flagged as a potential falsification.
    pub flagged: u64,
}

pub(crate) type Codes<A> = IndexMap<ProductCode, CodeRecord, HashKey, A>;

/// The record of a product code that no entry changed.
const NO_CODE: CodeRecord = CodeRecord {
    holder: None,
    alerts: 0,
    flagged: 0,
};

/// The record of a product code.
pub(crate) fn record_of<A: Allocator>(codes: &Codes<A>, code: &ProductCode) -> CodeRecord
    ensures { result ≡ code_in codes.now code.now }
{
    codes.get(code).copied().unwrap_or(NO_CODE)
}

/// The record of a product code, and the index at which the product code likely stands.
#[derive(Clone, Copy)]
pub(crate) struct Sought {
    pub index: usize,
    pub value: CodeRecord,
}

/// Searches for a product code.
pub(crate) fn seek<A: Allocator>(codes: &Codes<A>, code: &ProductCode) -> Sought
    ensures { result.value ≡ code_in codes.now code.now }
{
    let (index, value) = find(codes, code);
    Sought {
        index: index.unwrap_or(0),
        value: value.unwrap_or(NO_CODE),
    }
}

impl CodeRecord {
    /// The record after an entry that names the product code, or None if the entry leaves it as it is.
    fn changed_by(&self, entry: &Entry) -> Option<CodeRecord>
        requires alerts { self.now.alerts + 1 < 2 ^ 64 }
        requires flagged { self.now.flagged + 1 < 2 ^ 64 }
        ensures { unwrap_or result self.now ≡ code_noted entry.now self.now }
    {
        match (&entry.put.question, &entry.reply) {
            (_, Reply::Alert { flagged, .. }) => Some(CodeRecord {
                alerts: self.alerts + 1,
                flagged: if *flagged {
                    self.flagged + 1
                } else {
                    self.flagged
                },
                ..*self
            }),
            (Question::Upload { .. }, Reply::Uploaded) if self.holder.is_none() => Some(
                CodeRecord {
                    holder: Some(entry.put.actor.authorisation),
                    ..*self
                },
            ),
            _ => None,
        }
    }
}

/// Notes an entry, whose product code likely stands at an index. Room was made for its product code.
pub(crate) fn note<A: Allocator>(codes: &mut Codes<A>, entry: &Entry, likely: usize)
    requires room { 0 < spare codes.old }
    requires alerts { (c : ProductCode) → (code_in codes.old c).alerts + 1 < 2 ^ 64 }
    requires flagged { (c : ProductCode) → (code_in codes.old c).flagged + 1 < 2 ^ 64 }
    ensures { (c : ProductCode) →
        code_in codes.new c ≡ code_after c entry.now (code_in codes.old c) }
{
    let code = entry.put.question.code();
    let (index, old) = find_near(codes, &code, likely);
    let old = old.unwrap_or(NO_CODE);
    if let Some(record) = old.changed_by(entry) {
        write(codes, index, code, record);
    }
}
