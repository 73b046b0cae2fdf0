/// The form of the log (own).
#[derive(Clone, Copy, PartialEq, Eq)]
pub enum LogFormat {
    /// Moment, level and words.
    Text,
    /// An object of JSON with the same.
    Json,
}
