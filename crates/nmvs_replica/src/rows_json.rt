//! Rows of CSV as JSON.
use csv::{ReaderBuilder, StringRecord};
use json::Writer;
use std::alloc::{AllocError, Global};

/// An object of JSON with the rows of a text of CSV, of which each is an array of its cells.
///
/// # Errors
///
/// There is no memory.
pub(crate) fn rows_json(alloc: Global, rows: &[u8]) -> Result<Vec<u8>, AllocError> {
    let mut writer = Writer::new(Vec::new(alloc));
    writer.begin_object()?;
    writer.key("rows")?;
    writer.begin_array()?;
    let mut reader = ReaderBuilder::new()
        .has_headers(false)
        .from_reader(alloc, rows);
    let mut row = StringRecord::new(alloc);
    for _ in 0..u64::MAX {
        match reader.read_record(&mut row) {
            Ok(true) => write_row(&mut writer, &row)?,
            Ok(false) => break,
            Err(_) => return Err(AllocError),
        }
    }
    writer.end_array()?;
    writer.end_object()?;
    Ok(writer.into_inner())
}

fn write_row(writer: &mut Writer<Global>, row: &StringRecord) -> Result<(), AllocError> {
    writer.begin_array()?;
    for cell in row.iter() {
        writer.string(cell)?;
    }
    writer.end_array()
}
