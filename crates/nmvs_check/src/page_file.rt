//! Pages in files. A file that has its name is whole: it is written under another name, and then renamed. It takes the place of an
//! earlier page alone, so that no slip of a hand overwrites an export.
use crate::inputs::Inputs;
use crate::inspect_fault::InspectFault;
use crate::inspection::inspect;
use crate::request::Request;
use nmvs_inspect::{AnswerFault, PAGE_HEAD};
use nmvs_shard::HashKey;
use nmvs_stream::Device;
use std::alloc::Global;
use std::fs::{self, File};
use std::io::{self, Read};
use std::rt::HostRuntime;

/// The fault of a page that is not written. The file of its name stays as it was, if there was one.
#[derive(Clone, Copy)]
pub(crate) enum PageFault {
    /// The inspection of the export failed.
    Inspect(InspectFault),
    /// The file cannot be written.
    Unwritten,
    /// The file is one of the exports.
    Export,
    /// The file is there, and is no page.
    NoPage,
}

/// There is no memory.
const MEMORY: PageFault = PageFault::Inspect(InspectFault::Answer(AnswerFault::Memory));

/// Writes the page of an export to the file of this path.
///
/// # Errors
///
/// The input is no export of a lawful trail, or this number of reads did not reach its end. Or there is no memory, the file is
/// one of the exports, by whatever name, or no page, or the system refuses it.
pub(crate) fn write_page(
    rt: &HostRuntime,
    alloc: Global,
    key: HashKey,
    inputs: &mut Inputs<'_>,
    path: &str,
    reads: u64,
) -> Result<(), PageFault> {
    let asked = Request::Page(inputs.heading(alloc).or(Err(MEMORY))?);
    let part = format!(in alloc; "{path}.part").or(Err(MEMORY))?;
    if let Some(fault) = fault_of(rt, path, inputs) {
        return Err(fault);
    }
    // A page that was cut off left it there.
    let _ = fs::remove_file(rt, &part);
    let file = File::create_new(rt, &part).or(Err(PageFault::Unwritten))?;
    let written = match inspect_into(alloc, key, inputs, file, &asked, reads) {
        Ok(_) => fs::rename(rt, &part, path).or(Err(PageFault::Unwritten)),
        Err(fault) => Err(PageFault::Inspect(fault)),
    };
    if written.is_err() {
        let _ = fs::remove_file(rt, &part);
    }
    written
}

fn inspect_into(
    alloc: Global,
    key: HashKey,
    inputs: &mut Inputs<'_>,
    file: File,
    asked: &Request,
    reads: u64,
) -> Result<Option<usize>, InspectFault> {
    let (mut source, mut sink) = (Device::new(inputs), Device::new(file));
    inspect(alloc, key, &mut source, &mut sink, asked, reads)
}

/// The fault of the file of this path, if a page may not take its place.
fn fault_of(rt: &HostRuntime, path: &str, inputs: &Inputs<'_>) -> Option<PageFault> {
    match fs::metadata(rt, path) {
        Err(_) => None,
        Ok(found) if inputs.have(rt, &found) => Some(PageFault::Export),
        Ok(found) if !found.is_file() => Some(PageFault::Unwritten),
        Ok(_) if is_page(rt, path).unwrap_or(false) => None,
        Ok(_) => Some(PageFault::NoPage),
    }
}

/// Whether a file begins as a page does.
fn is_page(rt: &HostRuntime, path: &str) -> io::Result<bool> {
    let mut begin = [0; PAGE_HEAD.len()];
    fs::open(rt, path)?.read_exact(&mut begin)?;
    Ok(begin.as_slice() == PAGE_HEAD.as_bytes())
}
