//! The export of a repository: the audit trail of all its shards, to any sink or to a file.
//!
//! - [`export_summed`] writes the trail of each shard to a sink, while the repository answers.
//! - [`write_export`] and [`export`] write it to a file, with a digest next to it. The file gets its name once the log has confirmed
//!   all entries ([`Confirming`]). [`try_export`] tries that before.
//! - [`entries_of`] counts the entries of a shard.
#![tactic(auto)]

mod export_files;
mod exports;
mod slices;

pub use export_files::{
    Confirming, FileExportFault, Unwaited, WrittenExport, export, try_export, write_export,
};
pub use exports::{Exported, entries_of, export_summed};
