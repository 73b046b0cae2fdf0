//! Faults of files that are read or written.
ghost use Rattle.std.specs.Prelude.{◌≡◌, Some};
ghost use Rattle.nmvs_recovery.specs.Faults.{digest_text, file_fault_status, file_fault_text, import_text};

use nmvs_digest::DigestFault;
use nmvs_messages::CommandFault;
use nmvs_operator::users_trouble;
use nmvs_reader::Objection;
use nmvs_record::Finding;
use std::fmt;

/// The reason for which a file at the start is not taken, or the export is not written (own).
#[derive(Clone, Copy)]
pub enum FileFault<'a> {
    /// The file of this path can't be opened or read.
    CannotRead(&'a str),
    /// The export can't be written to the file of this path.
    CannotWrite(&'a str),
    /// The line of the users file with this number, counted from 1, is no command.
    UsersLine(usize, CommandFault),
    /// The last line of the users file, which has this number, lacks its LF.
    UsersEnd(usize),
    /// The line of the import with this number, counted from 1, is no entry line.
    ImportLine(usize),
    /// The reply in this line of the import is not that of the rules.
    ImportUnlawful(usize),
    /// The question in this line of the import was asked before with its tag, and put all the same.
    ImportRepeated(usize),
    /// The log in the folder of this path is refused.
    JournalRefused(&'a str),
    /// The digest of the import of this path is not the one in the file next to it.
    ImportDigest(&'a str),
    /// The file next to the import of this path has no digest of it.
    NoDigest(&'a str),
    /// The digest next to the import of this path cannot be read.
    CannotReadDigest(&'a str),
    /// Another server has taken the log over.
    Fenced,
    /// There was no memory.
    Memory,
}

impl<'a> fmt::Display for FileFault<'a> {
    ghost output = { λ fault. Some (file_fault_text fault) };

    fn fmt<W: fmt::Write>(&self, f: &mut fmt::Formatter<W>) -> fmt::Result {
        match self {
            FileFault::CannotRead(path) => write!(f, "cannot read {path}"),
            FileFault::CannotWrite(path) => write!(f, "cannot write {path}"),
            FileFault::UsersLine(number, fault) => {
                let trouble = users_trouble(*fault);
                write!(f, "users line {number}: {trouble}")
            }
            FileFault::UsersEnd(number) => {
                write!(f, "users line {number}: it has no end: UNENDED")
            }
            FileFault::ImportLine(number) => write!(f, "import line {number}"),
            FileFault::ImportUnlawful(number) => write!(f, "import line {number} is unlawful"),
            FileFault::ImportRepeated(number) => {
                write!(f, "import line {number} was asked before with its tag")
            }
            FileFault::JournalRefused(path) => write!(f, "journal {path} refused"),
            FileFault::ImportDigest(path) => {
                write!(f, "the digest of {path} is not the one in {path}.sha256")
            }
            FileFault::NoDigest(path) => write!(f, "{path}.sha256 is no digest of {path}"),
            FileFault::CannotReadDigest(path) => write!(f, "cannot read {path}.sha256"),
            FileFault::Fenced => f.write_str("another server has taken the log over"),
            FileFault::Memory => f.write_str("out of memory"),
        }
    }
}

impl<'a> FileFault<'a> {
    /// The exit status of the program. It is 3 if a line of the import, its digest or a journal is refused, and 4 if the export
    /// is not written. It is 6 if another server has taken the log over, and else 1.
    pub fn status(&self) -> u8
        ensures { result ≡ file_fault_status self.now }
    {
        match self {
            FileFault::ImportLine(_) | FileFault::ImportUnlawful(_) => 3,
            FileFault::ImportRepeated(_) => 3,
            FileFault::ImportDigest(_) | FileFault::NoDigest(_) => 3,
            FileFault::JournalRefused(_) => 3,
            FileFault::CannotWrite(_) => 4,
            FileFault::Fenced => 6,
            _ => 1,
        }
    }

    /// The fault of the import of this path, by this finding in it. In this toolchain a fault that holds the finding,
    /// and so a reply, gets no generated proof.
    pub(crate) fn of_import(path: &'a str, finding: Finding) -> FileFault<'a>
        ensures { file_fault_text result ≡ import_text path.now finding }
    {
        match finding {
            Finding::Read => FileFault::CannotRead(path),
            Finding::Unended(number) => FileFault::ImportLine(number),
            Finding::Line(_, Objection::Memory) => FileFault::Memory,
            Finding::Line(number, Objection::Unlawful { .. }) => FileFault::ImportUnlawful(number),
            Finding::Line(number, Objection::Repeated) => FileFault::ImportRepeated(number),
            Finding::Line(number, _) => FileFault::ImportLine(number),
        }
    }

    /// The fault of the import of this path whose digest is not known.
    pub(crate) fn of_digest(path: &'a str, fault: DigestFault) -> FileFault<'a>
        ensures { file_fault_text result ≡ digest_text path.now fault }
    {
        match fault {
            DigestFault::Memory => FileFault::Memory,
            DigestFault::Unread => FileFault::CannotReadDigest(path),
            DigestFault::Malformed => FileFault::NoDigest(path),
        }
    }
}
