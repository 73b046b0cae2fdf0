//! Lines of scans, and the rows that answer them.
ghost use Rattle.std.specs.Prelude.{◌≡◌, ◌<◌, ◌≤◌, ◌+◌, ◌^◌, ◌++◌, ◌&&◌, ℕ, List, Option, true, false, is_ok, length, map, IfOk, IfErr, OnOk};
ghost use Rattle.csv.specs.Writing.{default_writer, row_text};
ghost use Rattle.nmvs_stream.specs.InputLines.{input_lines, unfinished_line};
ghost use Rattle.nmvs_stream.specs.Sink.{Taken};
ghost use Rattle.nmvs_messages.specs.PendingLines.{kept_part};
ghost use Rattle.nmvs_record.specs.Import.{CannotRead};
ghost use Rattle.nmvs_elements.specs.declared.identifiers.National.{National as ANation};
ghost use Rattle.nmvs_check.specs.Scans as scans;

use crate::inspect_fault::InspectFault;
use crate::line_fault::LineFault;
use csv::WriterBuilder;
use nmvs_elements::{Elements, National, NationalNumber, read_scan};
use nmvs_inspect::AnswerFault;
use nmvs_messages::PendingLine;
use nmvs_record::Finding;
use nmvs_stream::{Failed, Sink, Source, cut_line, deliver};
use std::alloc::{AllocError, Global};

/// The columns of the answer.
const HEADER: &str = "line,code,serial,batch,expiry,national,fault\n";

/// Reads the lines of a source to its end, each as a scan, and writes a row of CSV for each. It returns whether all are read.
///
/// It takes memory for the rows of one read, whatever the number and the length of the lines.
///
/// # Errors
///
/// A read failed, or this number of reads did not reach the end; there is no memory for a row; or a write failed.
pub(crate) fn answer_scans<R: Source, W: Sink>(
    alloc: Global,
    nation: Option<National>,
    source: &mut R,
    sink: &mut W,
    reads: u64,
) -> Result<bool, InspectFault>
    requires source_open { (R.told source.old).ended ≡ false }
    requires few { reads < 2 ^ 51 }
    ensures told { IfOk result (scans.Tells nation (R.told source.old) (R.told source.new) (W.taken sink.old) (W.taken sink.new)) }
    ensures unread { IfErr result (λ fault. fault ≡ InspectFault.Found Finding.Read → CannotRead (R.told source.old) (R.told source.new) reads) }
{
    let Ok(mut rows) = Rows::new(alloc) else {
        return Err(InspectFault::Answer(AnswerFault::Memory));
    };
    let mut line = PendingLine::new();
    let mut buffer = [0; 4096];
    for _ in 0..reads {
        match source.read(&mut buffer) {
            Err(Failed) => return Err(InspectFault::Found(Finding::Read)),
            Ok(0) => {
                return match finish(alloc, &line, &mut rows, sink) {
                    Ok(all_read) => Ok(all_read),
                    Err(fault) => Err(InspectFault::Answer(fault)),
                };
            }
            Ok(count) => {
                match answer_chunk(alloc, nation, &mut line, &buffer[..count], &mut rows, sink) {
                    Ok(()) => {}
                    Err(fault) => return Err(InspectFault::Answer(fault)),
                }
            }
        }
    }
    Err(InspectFault::Found(Finding::Read))
}

/// The rows of the lines so far.
#[derive(Drop)]
struct Rows {
    /// How many lines there are.
    count: u64,
    /// Whether each was read.
    all_read: bool,
    /// The text that is not written yet.
    block: Vec<u8>,
}

impl Rows {
    /// The header alone.
    fn new(alloc: Global) -> Result<Rows, AllocError>
        ensures count { IfOk result (λ rows. rows.count ≡ 0) }
        ensures all_read { IfOk result (λ rows. rows.all_read ≡ true) }
        ensures block { IfOk result (λ rows. rows.block.items ≡ scans.header) }
    {
        let mut block = Vec::new(alloc);
        block.extend_from_slice(HEADER.as_bytes())?;
        Ok(Rows {
            count: 0,
            all_read: true,
            block,
        })
    }

    /// Adds the row of the next line.
    fn push(
        &mut self,
        alloc: Global,
        reading: &Result<Elements, LineFault>,
    ) -> Result<(), AllocError>
        requires { self.old.count + 1 < 2 ^ 64 }
        ensures count { OnOk result (self.new.count ≡ self.old.count + 1) }
        ensures all_read { OnOk result (self.new.all_read ≡ (self.old.all_read && is_ok reading.now)) }
        ensures block { OnOk result (self.new.block.items ≡ self.old.block.items ++ scans.row (self.old.count + 1) reading.now) }
    {
        self.count += 1;
        self.all_read = self.all_read && reading.is_ok();
        let number = format!(in alloc; "{}", self.count)?;
        match reading {
            Ok(pack) => append_pack(alloc, &mut self.block, &number, pack),
            Err(fault) => append_fault(alloc, &mut self.block, &number, *fault),
        }
    }
}

/// Answers the lines that have their LF in the bytes of one read, after the line that was begun.
fn answer_chunk<W: Sink>(
    alloc: Global,
    nation: Option<National>,
    line: &mut PendingLine,
    chunk: &[u8],
    rows: &mut Rows,
    sink: &mut W,
) -> Result<(), AnswerFault>
    requires { rows.old.count + length chunk.now < 2 ^ 64 }
    ensures count { OnOk result (rows.new.count ≤ rows.old.count + length chunk.now) }
    ensures answered { (start : Taken) (input : List ℕ) → line.old ≡ kept_part (unfinished_line input)
        → scans.Answered nation start (W.taken sink.old) rows.old (input_lines input)
        → OnOk result ((line.new ≡ kept_part (unfinished_line (input ++ chunk.now)))
        × scans.Answered nation start (W.taken sink.new) rows.new (input_lines (input ++ chunk.now))) }
{
    take_chunk(alloc, nation, line, chunk, rows)?;
    deliver(sink, &rows.block)?;
    rows.block.clear();
    Ok(())
}

/// Adds the rows of the lines that have their LF in the bytes of one read.
fn take_chunk(
    alloc: Global,
    nation: Option<National>,
    line: &mut PendingLine,
    chunk: &[u8],
    rows: &mut Rows,
) -> Result<(), AllocError>
    requires { rows.old.count + length chunk.now < 2 ^ 64 }
    ensures count { OnOk result (rows.new.count ≤ rows.old.count + length chunk.now) }
    ensures answered { (start sink : Taken) (input : List ℕ) → line.old ≡ kept_part (unfinished_line input)
        → scans.Answered nation start sink rows.old (input_lines input)
        → OnOk result ((line.new ≡ kept_part (unfinished_line (input ++ chunk.now)))
        × scans.Answered nation start sink rows.new (input_lines (input ++ chunk.now))) }
{
    let mut rest = chunk;
    while let Some((tail, behind)) = cut_line(rest) {
        line.extend(tail);
        rows.push(alloc, &read_line(line.as_slice(), nation))?;
        line.clear();
        rest = behind;
    }
    line.extend(rest);
    Ok(())
}

/// Answers the bytes after the last LF, if any, and writes the rest of the rows.
fn finish<W: Sink>(
    alloc: Global,
    line: &PendingLine,
    rows: &mut Rows,
    sink: &mut W,
) -> Result<bool, AnswerFault>
    requires { rows.old.count + 1 < 2 ^ 64 }
    ensures { (nation : Option ANation) (start : Taken) (input : List ℕ) → line.now ≡ kept_part (unfinished_line input)
        → scans.Answered nation start (W.taken sink.old) rows.old (input_lines input)
        → IfOk result (scans.Finished nation start (W.taken sink.new) input) }
{
    if !line.is_empty() {
        rows.push(alloc, &Err(LineFault::Unended))?;
    }
    deliver(sink, &rows.block)?;
    Ok(rows.all_read)
}

/// The reading of a line, by its kept bytes.
fn read_line(line: &[u8], nation: Option<National>) -> Result<Elements, LineFault>
    ensures { scans.ReadsLine nation line.now result }
{
    if line.is_empty() {
        return Err(LineFault::Empty);
    }
    match read_scan(line, nation) {
        Ok(pack) => Ok(pack),
        Err(fault) => Err(LineFault::Scan(fault)),
    }
}

/// Puts the row of the code of a pack at the end of a block.
fn append_pack(
    alloc: Global,
    block: &mut Vec<u8>,
    number: &str,
    pack: &Elements,
) -> Result<(), AllocError>
    ensures { OnOk result (block.new.items ≡ block.old.items ++ row_text default_writer (scans.pack_cells number.now pack.now)) }
{
    let expiry = pack.expiry.text();
    let cells = [
        number.as_bytes(),
        pack.code.text().as_bytes(),
        pack.serial.text().as_bytes(),
        pack.batch.text().as_bytes(),
        expiry.as_bytes(),
        national_text(&pack.national).as_bytes(),
        b"",
    ];
    append_cells(alloc, block, &cells)
}

/// Puts the row of a line that is not read at the end of a block.
fn append_fault(
    alloc: Global,
    block: &mut Vec<u8>,
    number: &str,
    fault: LineFault,
) -> Result<(), AllocError>
    ensures { OnOk result (block.new.items ≡ block.old.items ++ row_text default_writer (scans.fault_cells number.now fault)) }
{
    let fault = format!(in alloc; "{fault}")?;
    let cells: [&[u8]; 7] = [number.as_bytes(), b"", b"", b"", b"", b"", fault.as_bytes()];
    append_cells(alloc, block, &cells)
}

fn national_text(number: &Option<NationalNumber>) -> &str
    ensures { result.now ≡ scans.national_cell number.now }
{
    match number {
        Some(number) => number.text(),
        None => "",
    }
}

/// Puts cells at the end of a block, as a row of CSV.
fn append_cells(alloc: Global, block: &mut Vec<u8>, cells: &[&[u8]]) -> Result<(), AllocError>
    ensures { OnOk result (block.new.items ≡ block.old.items ++ row_text default_writer (map (λ c. c.now) cells.now)) }
{
    let mut writer = WriterBuilder::new().from_writer(Vec::new(alloc));
    match writer.write_fields(cells) {
        Ok(()) => {}
        Err(_) => return Err(AllocError),
    }
    match writer.into_inner() {
        Ok(text) => Ok(block.extend_from_slice(&text)?),
        Err(_) => Err(AllocError),
    }
}
