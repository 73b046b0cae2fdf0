//! A server among several machines, one of which answers at a time.

use crate::launch::serve_from;
use crate::listening::try_listening;
use crate::starting::Beside;
use crate::{Fault, Host, Outcome};
use nmvs_engine::{EngineThreads, Turn};
use nmvs_metrics::Metrics;
use nmvs_operator::Cluster;
use nmvs_recovery::Run;
use nmvs_standby::{Followed, Means, Member, stand_by};
use nmvs_stream::{Console, Sides};
use std::random::RandomSource;
use std::sync::atomic::AtomicBool;

/// Follows the server that answers, and answers after it.
pub(crate) fn serve_in_cluster<'r, 'o, R: Host + Sync, T: Sides>(
    run: Run<'r, 'o, R>,
    cluster: &'o Cluster,
    metrics: &'r Metrics,
    console: &mut Console<T>,
    beside: Beside<'r>,
) -> Outcome<'o> {
    // The program runs these threads for each server among several machines.
    let Some(threads) = beside.threads else {
        return Outcome::of(Fault::Impossible("no dialer"));
    };
    match follow(&run, cluster, threads, metrics, console, beside.interrupt) {
        Ok(Some((followed, turn))) => {
            metrics.note_standby(false);
            let mut followed = Some(followed);
            let turn = Some(turn);
            let outcome = serve_from(run, metrics, &mut followed, turn, console, beside.interrupt);
            drop(followed);
            outcome
        }
        Ok(None) => Outcome {
            session: None,
            program: None,
        },
        Err(fault) => Outcome::of(fault),
    }
}

/// Follows the server that answers until this one owns the log. `None` if the operator ends this one. It tries the
/// sockets and ports of an owner first: a wrong option shows at the start, not at a takeover.
fn follow<'r, 'o, R: Host + Sync, T: Sides>(
    run: &Run<'r, 'o, R>,
    cluster: &'o Cluster,
    threads: EngineThreads<'r>,
    metrics: &'r Metrics,
    console: &mut Console<T>,
    interrupt: &AtomicBool,
) -> Result<Option<(Followed<'r, 'o>, Turn<'r>)>, Fault<'o>> {
    try_listening(run.rt, run.options)?;
    let mut drawn = [0; 16];
    if run.rt.fill_bytes(&mut drawn).is_err() {
        return Err(Fault::Random);
    }
    // The options have one with each cluster.
    let Some(folder) = &run.options.journal else {
        return Err(Fault::Impossible("a cluster without a folder"));
    };
    let means = Means {
        member: Member { cluster, drawn },
        metrics,
        threads,
        interrupt,
    };
    match stand_by(run, folder, means, console) {
        Ok(followed) => Ok(followed),
        Err(fault) => Err(Fault::File(fault)),
    }
}
