//! The values that are printed on a pack.

use nmvs_identifier::{Batch, Expiry};

/// The batch number and the expiry date that are printed on a pack (Article 4 (b)).
#[derive(Clone, Copy)]
pub struct Printed {
    pub batch: Batch,
    pub expiry: Expiry,
}
