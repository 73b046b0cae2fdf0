//! Questions that are asked again.

use crate::Reply;

/// The relation of a question to the entries of a trail, by the tag that it has (own).
#[derive(Clone, Copy)]
pub enum Repeat {
    /// The question is put to the rules. It has no tag, or names no pack. Or none of the last 16 entries about its pack
    /// is of its user with its tag. Or the last such entry is more than a day apart, or asked the same and its reply
    /// gives the state of a pack.
    New,
    /// Such an entry stands at this place of the trail, and asked the same: its reply answers again.
    Same { place: usize, reply: Reply },
    /// Such an entry asked something else.
    Other,
}
