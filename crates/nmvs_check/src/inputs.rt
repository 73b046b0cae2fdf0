//! Files that are read one after another. Each is compared with its stored digest, in the file next to it.
use crate::faults::{fail, fail_file};
use crate::status::TROUBLE;
use nmvs_digest::{DigestFault, Digested, digest_line, file_name, stored_digest};
use nmvs_stream::{Device, Source};
use std::alloc::{AllocError, Global};
use std::fs::{self, File, Metadata};
use std::io::{self, ErrorKind, IsTerminal, Read};
use std::os::unix::fs::MetadataExt;
use std::process::ExitCode;
use std::rt::{HostRuntime, Stdin};

/// Something that is read.
#[derive(Drop)]
enum Handle {
    Standard(Stdin),
    File(File),
}

impl Read for Handle {
    fn read(&mut self, buffer: &mut [u8]) -> io::Result<usize> {
        match self {
            Handle::Standard(input) => input.read(buffer),
            Handle::File(file) => file.read(buffer),
        }
    }
}

/// A file.
#[derive(Drop)]
struct Input<'a> {
    path: &'a str,
    source: Digested<Device<Handle>>,
}

/// The bytes of files, one after another. A read fails at the end of a file whose digest is not the stored one.
#[derive(Drop)]
pub(crate) struct Inputs<'a> {
    /// Those that were not read to their end, the next one last.
    inputs: Vec<Input<'a>>,
    /// The file whose digest is not the stored one, if a read failed for that.
    pub differing: Option<&'a str>,
}

impl<'a> Inputs<'a> {
    /// Opens files. The path `-` is standard input, and so is an empty list.
    ///
    /// # Errors
    ///
    /// A file cannot be opened, its stored digest cannot be read or is none, or there is no memory for the list. It prints
    /// which, and gives the status.
    pub(crate) fn open(
        rt: &HostRuntime,
        alloc: Global,
        paths: &[&'a str],
    ) -> Result<Inputs<'a>, ExitCode> {
        let mut inputs = Vec::new(alloc);
        if paths.is_empty() {
            push_input(rt, alloc, "-", &mut inputs)?;
        }
        // The last one first.
        for path in paths.iter().rev() {
            push_input(rt, alloc, path, &mut inputs)?;
        }
        Ok(Inputs {
            inputs,
            differing: None,
        })
    }

    /// A line for each file: its name, and the digest that it has to have.
    pub(crate) fn heading(&self, alloc: Global) -> Result<String, AllocError> {
        let mut text = String::new(alloc);
        for input in self.inputs.iter().rev() {
            let line = heading_line(alloc, input.path, &input.source.expected())?;
            text.push_str(&line)?;
        }
        Ok(text)
    }

    /// Whether this is one of the files that are still to be read, under whatever name.
    pub(crate) fn have(&self, rt: &HostRuntime, found: &Metadata) -> bool {
        for input in self.inputs.iter() {
            if let Ok(other) = fs::metadata(rt, input.path) {
                if other.dev() == found.dev() && other.ino() == found.ino() {
                    return true;
                }
            }
        }
        false
    }

    /// Compares the digest of the file whose end was read with the stored one, and goes on to the next file.
    fn end(&mut self) -> io::Result<()> {
        let Some(Input { path, source }) = self.inputs.pop() else {
            return Ok(());
        };
        if source.agrees() {
            return Ok(());
        }
        self.differing = Some(path);
        Err(io::Error::from(ErrorKind::InvalidData))
    }
}

fn push_input<'a>(
    rt: &HostRuntime,
    alloc: Global,
    path: &'a str,
    inputs: &mut Vec<Input<'a>>,
) -> Result<(), ExitCode> {
    let source = open_source(rt, alloc, path)?;
    match inputs.push(Input { path, source }) {
        Ok(()) => Ok(()),
        Err(_) => Err(fail(rt, "out of memory")),
    }
}

fn open_source(
    rt: &HostRuntime,
    alloc: Global,
    path: &str,
) -> Result<Digested<Device<Handle>>, ExitCode> {
    if path == "-" {
        let input = Handle::Standard(standard_input(rt));
        return Ok(Digested::new(Device::new(input), None));
    }
    let stored = match stored_digest(rt, alloc, path) {
        Ok(stored) => stored,
        Err(fault) => return Err(fail_stored(rt, path, fault)),
    };
    match fs::open(rt, path) {
        Ok(file) => Ok(Digested::new(Device::new(Handle::File(file)), stored)),
        Err(_) => Err(fail_file(rt, path, "cannot be opened")),
    }
}

/// Prints why the stored digest of a file is not known, and returns the status of trouble.
fn fail_stored(rt: &HostRuntime, path: &str, fault: DigestFault) -> ExitCode {
    if let DigestFault::Memory = fault {
        return fail(rt, "out of memory");
    }
    let _ = eprintln!(rt; "{path}.sha256: {fault}");
    ExitCode::from(TROUBLE)
}

/// Standard input. If it is a terminal, a line on standard error says that an export is read from it.
fn standard_input(rt: &HostRuntime) -> Stdin {
    let input = rt.stdin();
    if input.is_terminal() {
        let _ = eprintln!(rt;
            "an export is read from this terminal; --help says how to name a file"
        );
    }
    input
}

fn heading_line(
    alloc: Global,
    path: &str,
    stored: &Option<[u8; 32]>,
) -> Result<String, AllocError> {
    match stored {
        Some(sum) => digest_line(alloc, sum, file_name(path)),
        None => format!(in alloc; "{path}, without a digest\n"),
    }
}

impl Read for Inputs<'_> {
    fn read(&mut self, buffer: &mut [u8]) -> io::Result<usize> {
        if buffer.is_empty() {
            return Ok(0);
        }
        for _ in 0..self.inputs.len() {
            let Some(input) = self.inputs.last_mut() else {
                return Ok(0);
            };
            match input.source.read(buffer) {
                Ok(0) => self.end()?,
                Ok(count) => return Ok(count),
                Err(_) => return Err(io::Error::from(ErrorKind::Other)),
            }
        }
        Ok(0)
    }
}
