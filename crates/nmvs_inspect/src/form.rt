/// The form in which rows are written (own).
#[derive(Clone, Copy)]
pub enum Form {
    /// For people: cells in columns.
    Table,
    /// RFC 4180, with a header.
    Csv,
    /// Entry lines, as an export has them.
    Json,
    /// Rows of a table in HTML.
    Html,
}
