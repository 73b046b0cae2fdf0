//! The file of the witness: how far the log was judged, and the digest of what was judged of it.
use crate::appended_file::{StartFault, refused};
use nmvs_alerts::Witness;
use nmvs_store::write_mark;
use std::alloc::Global;
use std::fs::File;
use std::io::ErrorKind;
use std::rt::Files;
use std::{fs, io};
use thiserror::Error;

/// Why a witness is not taken.
#[derive(Clone, Copy, Debug, Error)]
#[error("it is no line of a witness")]
struct NoWitness;

/// The file `witness.txt` of a folder, with what it says.
#[derive(Drop)]
pub(crate) struct WitnessFile {
    path: String,
    /// The file by way of which it is replaced.
    part: String,
    /// What an earlier run judged, until this one has judged it again.
    pub awaited: Option<Witness>,
    /// The number of entries that the file says.
    written: usize,
}

impl WitnessFile {
    /// Reads the file of a folder, if it has one.
    ///
    /// # Errors
    ///
    /// The file cannot be read, or is no line of a witness. Or there is no memory.
    pub fn open<R: Files<File = File> + AllocGlobal>(
        rt: &R,
        alloc: Global,
        folder: &str,
    ) -> Result<WitnessFile, StartFault> {
        let path = format!(in alloc; "{folder}/witness.txt")?;
        let part = format!(in alloc; "{folder}/witness.part")?;
        let awaited = witness_in(rt, alloc, &path)?;
        Ok(WitnessFile {
            path,
            part,
            awaited,
            written: 0,
        })
    }

    /// Compares what was judged with what an earlier run judged, once it has as many entries. The result is false if they differ.
    pub fn meets(&mut self, judged: &Witness) -> bool {
        let Some(awaited) = self.awaited else {
            return true;
        };
        if judged.entries < awaited.entries {
            return true;
        }
        if judged.bytes != awaited.bytes || judged.digest != awaited.digest {
            return false;
        }
        self.written = awaited.entries;
        self.awaited = None;
        true
    }

    /// Replaces what the file says by what was judged, if that is more. It is then on the disk. What an earlier run judged stands until
    /// this one has judged it again.
    ///
    /// # Errors
    ///
    /// The system refused it, or there is no memory. What it said stands.
    pub fn write<R: Files<File = File>>(
        &mut self,
        rt: &R,
        alloc: Global,
        judged: &Witness,
    ) -> io::Result<()> {
        if self.awaited.is_some() || judged.entries <= self.written {
            return Ok(());
        }
        let line = judged.line(alloc)?;
        write_mark(rt, &self.path, &self.part, &line)?;
        self.written = judged.entries;
        Ok(())
    }
}

/// The witness in the file of this path, if there is such a file.
fn witness_in<R: Files<File = File> + AllocGlobal>(
    rt: &R,
    alloc: Global,
    path: &str,
) -> Result<Option<Witness>, StartFault> {
    let line = match fs::read(rt, path) {
        Ok(line) => line,
        Err(fault) if fault.kind() == ErrorKind::NotFound => return Ok(None),
        Err(fault) => return Err(refused(alloc, path, &fault)),
    };
    match Witness::read(alloc, &line)? {
        Some(witness) => Ok(Some(witness)),
        None => Err(refused(alloc, path, &NoWitness)),
    }
}
