//! The files of the page that shows alerts.
use crate::appended_file::{StartFault, refused};
use crate::routes::Served;
use std::alloc::Global;
use std::fs;
use std::fs::File;
use std::rt::Files;

/// The files of the page, as they were at the start.
#[derive(Drop)]
pub(crate) struct Pages {
    page: Vec<u8>,
    script: Vec<u8>,
    words: Vec<u8>,
}

impl Pages {
    /// Reads the files of the page in a folder.
    ///
    /// # Errors
    ///
    /// One of them cannot be read, or there is no memory.
    pub fn open<R: Files<File = File> + AllocGlobal>(
        rt: &R,
        alloc: Global,
        folder: &str,
    ) -> Result<Pages, StartFault> {
        let page = read(rt, alloc, folder, "alerts.html")?;
        let script = read(rt, alloc, folder, "alerts.js")?;
        let words = read(rt, alloc, folder, "alerts-words.js")?;
        Ok(Pages {
            page,
            script,
            words,
        })
    }

    /// The bytes of what is served, if it is a file of the page.
    pub fn content(&self, served: Served) -> Option<&[u8]> {
        match served {
            Served::Page => Some(self.page.as_slice()),
            Served::Script => Some(self.script.as_slice()),
            Served::Words => Some(self.words.as_slice()),
            _ => None,
        }
    }
}

fn read<R: Files<File = File> + AllocGlobal>(
    rt: &R,
    alloc: Global,
    folder: &str,
    name: &str,
) -> Result<Vec<u8>, StartFault> {
    let path = format!(in alloc; "{folder}/{name}")?;
    match fs::read(rt, &path) {
        Ok(bytes) => Ok(bytes),
        Err(fault) => Err(refused(alloc, &path, &fault)),
    }
}
