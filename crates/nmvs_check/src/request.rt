use nmvs_identifier::{Batch, Pack, ProductCode};
use nmvs_inspect::{By, Filter, Form};

/// A request about an export.
#[derive(Drop)]
pub(crate) enum Request {
    /// The number of its lines, and of those of each version; the holder and the alerts of each product code.
    Summary,
    /// The report of a product code.
    Report(ProductCode),
    /// The reports of all product codes.
    Reports(Form),
    /// The lines about a pack.
    Audit(Pack),
    /// The entries that the filter takes.
    List(Filter, Form),
    /// The entries that the filter takes, counted by these parts.
    Count(Filter, Vec<By>, Form),
    /// A page for a browser, under this heading.
    Page(String),
    /// The story of a pack.
    Story(Pack, Form),
    /// The packs of a batch.
    Packs(ProductCode, Batch, Form),
}
