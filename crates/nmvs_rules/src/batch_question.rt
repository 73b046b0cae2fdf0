/// A question about a batch, without the batch (Article 40).
#[derive(Clone, Copy, PartialEq, Eq)]
pub enum BatchQuestion {
    /// Recalls the batch.
    Recall,
    /// Withdraws the batch.
    Withdraw,
}
