//! Lines of a list of cases.
ghost use Rattle.std.specs.Prelude.{◌≡◌};
ghost use Rattle.nmvs_cases.specs.Cases as cases;

use crate::{Act, Author, Case, Hint, Range};
use nmvs_identifier::{Moment, ProductCode};

/// One act of an author on the alerts of a range.
#[derive(Clone, Copy)]
pub struct CaseLine {
    /// The number of entries that were judged when it was done. The hints of the alerts are those over these.
    pub at: u64,
    pub moment: Moment,
    pub author: Author,
    pub range: Range,
    pub act: Act,
}

impl CaseLine {
    /// The case after the line, of the flagged alert on this product code with this number, which has this hint at the line. It
    /// stays if the alert is not of the range, or the author may not do the act on this case.
    pub fn on(&self, case: &Case, code: &ProductCode, number: u64, hint: Option<Hint>) -> Case
        ensures { result ≡ cases.on self.now case.now code.now number hint }
    {
        if self.range.has(code, number, hint) {
            case.after(self.act, self.author.reader(), self.author.user())
                .unwrap_or(*case)
        } else {
            *case
        }
    }
}
