//! The end of a server: it marks, exports and settles its trail.
ghost use Rattle.std.specs.Prelude.{◌≡◌, OnOk};

use crate::Fault;
use crate::announcements::settled_text;
use crate::server::Config;
use log::{Log, info, warn};
use nmvs_desk::{Clerk, Repository, settle};
use nmvs_directory::Naming;
use nmvs_exports::{Unwaited, export};
use nmvs_history::Histories;
use nmvs_journal::Unconfirmed;
use nmvs_recovery::{FileFault, Host, Paths, Run, mark};
use nmvs_shard::Shard;
use nmvs_stream::{Sink, deliver};
use std::alloc::Global;
use std::sync::atomic::Ordering;

/// Marks all of the trail as confirmed, if there is a log of this machine. If an engine keeps the log, it gives the turn up.
pub(crate) fn mark_all<'r, 'o, R: Host>(
    config: &Config<'r, 'o, R>,
    paths: Option<&Paths<'o>>,
    confirmed: Result<usize, Unconfirmed>,
) -> Result<(), Fault<'o>> {
    let Some(paths) = paths else {
        return Ok(());
    };
    if config.is_fenced.load(Ordering::SeqCst) {
        return Err(Fault::File(FileFault::Fenced));
    }
    match confirmed {
        Ok(count) => {
            config.metrics.note_all_confirmed();
            if is_shared(config) {
                end_turn(config);
                return Ok(());
            }
            mark_end(config, paths, count)
        }
        Err(Unconfirmed) => Err(Fault::JournalUnwritten(paths.folder)),
    }
}

/// Whether an engine keeps the log on several machines. The file of this machine is a copy then, without marks.
fn is_shared<R>(config: &Config<'_, '_, R>) -> bool {
    config.run.options.cluster.is_some()
}

/// Gives the turn up, so that no silence passes before another server takes over. All of the logs is confirmed before. It logs
/// whether it did.
fn end_turn<R: Host>(config: &Config<'_, '_, R>) {
    let run = &config.run;
    let mut turn = config.turn.lock(run.rt);
    let is_given = match &mut *turn {
        Some(turn) => turn.give_up(*run.alloc),
        None => false,
    };
    if is_given {
        info!(run.rt; "handed over");
    } else {
        warn!(run.rt; "the turn is not given up: another server takes over after the silence");
    }
}

/// Marks all of the log as confirmed. (Each change of the users was marked when it was kept.)
fn mark_end<'r, 'o, R: Host>(
    config: &Config<'r, 'o, R>,
    paths: &Paths<'o>,
    count: usize,
) -> Result<(), Fault<'o>> {
    match mark(&config.run, paths, &paths.mark, count) {
        Ok(()) => Ok(()),
        Err(fault) => Err(Fault::File(fault)),
    }
}

/// Writes the export, settles the repository, and prints the length of each shard's trail.
pub(crate) fn close<'r, 'o, J: Naming, H: Histories, R: Host, W: Sink>(
    config: &Config<'r, 'o, R>,
    repository: Repository<'r, H>,
    clerks: Vec<Clerk<'r, J, H>, &'r Global>,
    out: &mut W,
) -> Result<(), Fault<'o>> {
    match prepare_settlement(config, &repository, clerks.len()) {
        Ok(()) => {}
        Err(fault) => {
            drop((repository, clerks));
            return Err(fault);
        }
    }
    match settle(config.run.alloc, repository, clerks) {
        Ok(settled) => {
            tell_settled(&config.run, &settled.shards, out);
            drop(settled);
            Ok(())
        }
        Err(unsettled) => {
            drop(unsettled);
            Err(Fault::Memory)
        }
    }
}

/// Writes the export, and refuses to settle if not all clerks are back.
fn prepare_settlement<'r, 'o, H: Histories, R: Host>(
    config: &Config<'r, 'o, R>,
    repository: &Repository<'r, H>,
    clerks: usize,
) -> Result<(), Fault<'o>>
    ensures { OnOk result (clerks ≡ repository.now.clerks) }
{
    export_at_end(config, repository)?;
    if clerks != repository.clerks() {
        return Err(Fault::LostClerk);
    }
    Ok(())
}

/// Writes the export to the file of the options, if they name one.
pub(crate) fn export_at_end<'r, 'o, H: Histories, R: Host>(
    config: &Config<'r, 'o, R>,
    repository: &Repository<'r, H>,
) -> Result<(), Fault<'o>> {
    // All of the trail is confirmed before the end.
    match export(&config.run, repository, &Unwaited) {
        Ok(()) => Ok(()),
        Err(fault) => Err(Fault::File(fault)),
    }
}

/// Logs that the repository is settled, and prints the length of each trail. A failed write changes nothing.
fn tell_settled<R: Log, W: Sink>(run: &Run<'_, '_, R>, shards: &[Shard<&Global>], out: &mut W) {
    info!(run.rt; shards = shards.len(); "settled");
    if let Ok(text) = settled_text(*run.alloc, shards) {
        let _failed = deliver(out, text.as_bytes());
    }
}
