//! The subjects of questions: what the body of an answer takes from its question.
ghost use Rattle.std.specs.Prelude.{◌≡◌, ◌++◌, ◌∷◌, [], IfOk, OnOk};

use nmvs_elements::ScanFault;
use nmvs_identifier::ProductCode;
use nmvs_rules::Printed;
use std::alloc::{AllocError, Global};
use std::marker::Model;

/// The scanned values of a question, or the fault of its scan.
pub type Scanned = Result<Printed, ScanFault>;

/// The subject of a question.
#[derive(Clone, Copy)]
pub struct Subject {
    /// Its product code. There is none if its text is no product code.
    pub code: Option<ProductCode>,
    /// Its scanned values, if it has some.
    pub scanned: Option<Scanned>,
}

/// The subject of each question of a bulk, in order.
#[derive(Drop)]
pub struct BulkSubjects {
    entries: Vec<Subject>,
}

impl Model for BulkSubjects {
    ghost use Rattle.std.specs.Prelude.{List};
    ghost use Rattle.nmvs_json.specs.declared.subject.Subject.{Subject};

    ghost Value = { List Subject };

    ghost view = { λ s. s.entries.items };
}

impl BulkSubjects {
    /// An empty list with room for this number of questions.
    pub(crate) fn with_capacity(alloc: Global, count: usize) -> Result<BulkSubjects, AllocError>
        ensures { IfOk result (λ subjects. subjects ≡ []) }
    {
        let entries = Vec::with_capacity(alloc, count)?;
        Ok(BulkSubjects { entries })
    }

    /// Appends the subject of a question about this product code and with these scanned values.
    pub(crate) fn push(
        &mut self,
        code: Option<ProductCode>,
        scanned: Option<Scanned>,
    ) -> Result<(), AllocError>
        ensures { OnOk result (self.new ≡ self.old ++ record { code = code; scanned = scanned } ∷ []) }
    {
        Ok(self.entries.push(Subject { code, scanned })?)
    }

    /// The subject of each question, in order.
    pub fn entries(&self) -> &[Subject]
        ensures { result.now ≡ self.now }
    {
        self.entries.as_slice()
    }
}
