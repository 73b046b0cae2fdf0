//! One session over the console, by a server that listens nowhere.
ghost use Rattle.std.specs.Prelude.{◌≡◌, ◌<◌, false, vec_len, pos};
ghost use Rattle.std.specs.Result.{result_err};
ghost use Rattle.nmvs_messages.specs.declared.end.End.{End as TheEnd};
ghost use Rattle.nmvs_messages.specs.declared.peer.Peer.TheVariants as peers;
ghost use Rattle.nmvs_messages.specs.Peers.{TakesFrom};
ghost use Rattle.nmvs_messages.specs.Withheld.{AtOnce, Stays};
ghost use Rattle.nmvs_protocol.specs.Session.{session_limits, Session};
ghost use Rattle.nmvs_reception.specs.Desk.{DeskView, Takes};
ghost use Rattle.nmvs_stream.specs.Console.{IsFresh};
ghost use Rattle.nmvs_service.specs.Faults.{outcome};

use crate::Outcome;
use crate::closing::export_at_end;
use crate::fault::outcome_of;
use crate::server::Config;
use nmvs_desk::{Clerk, Repository};
use nmvs_directory::{Naming, Notice};
use nmvs_history::Histories;
use nmvs_messages::{End, Peer, SESSION_LIMITS};
use nmvs_protocol::serve;
use nmvs_reception::{ClerkDesk, Opened, ProgramClock};
use nmvs_recovery::Host;
use nmvs_stream::{Console, Sides};
use std::sync::Mutex;

/// Serves one session over the console, by the first clerk.
pub(crate) fn serve_alone<'r, 'o, J: Naming, H: Histories, R: Host, T: Sides>(
    config: &Config<'r, 'o, R>,
    latest: &Mutex<Notice<J>>,
    opened: Opened<'r, J, H>,
    console: &mut Console<T>,
) -> Outcome<'o>
    requires some { 0 < vec_len opened.clerks }
    requires fresh { IsFresh (T.Source.told console.old.source) (T.Sink.taken console.old.sink) }
{
    let Opened {
        repository,
        mut clerks,
    } = opened;
    let mut clerk = clerks.remove(0);
    clerk.keep_no_receipts();
    let outcome = serve_one(config, latest, &repository, clerk, console);
    drop((repository, clerks));
    outcome
}

/// Serves one session over the console by the clerk, whose desk begins with the notice that lies under the lock, and writes the
/// export at the end, also after a session's fault.
fn serve_one<'r, 'o, J: Naming, H: Histories, R: Host, T: Sides>(
    config: &Config<'r, 'o, R>,
    latest: &Mutex<Notice<J>>,
    repository: &Repository<'r, H>,
    clerk: Clerk<'r, J, H>,
    console: &mut Console<T>,
) -> Outcome<'o>
    requires fresh { IsFresh (T.Source.told console.old.source) (T.Sink.taken console.old.sink) }
    ensures { (first : DeskView) × (first ≡ record { clerk = clerk.entry; shards = repository.now.shards; rated = false; asked = 0; gave = pos 0; reads = 0; notice = first.notice })
        × (last : DeskView) × (end : TheEnd) × Session (TakesFrom Takes peers.Anyone) AtOnce Stays session_limits first
        (T.Source.told console.old.source) (T.Sink.taken console.old.sink)
        last (T.Source.told console.new.source) (T.Sink.taken console.new.sink) end
        × (result.session ≡ result_err (outcome end)) }
{
    let end = serve_session(config, latest, repository, clerk, console);
    let program = export_at_end(config, repository).err();
    Outcome {
        session: outcome_of(end).err(),
        program,
    }
}

/// Serves one session over the console by the clerk, whose desk begins with the notice that lies under the lock.
fn serve_session<'s, 'r, J: Naming, H: Histories, R: Host, T: Sides>(
    config: &'s Config<'r, '_, R>,
    latest: &'s Mutex<Notice<J>>,
    repository: &'s Repository<'r, H>,
    clerk: Clerk<'r, J, H>,
    console: &mut Console<T>,
) -> End
    requires fresh { IsFresh (T.Source.told console.old.source) (T.Sink.taken console.old.sink) }
    ensures { (first : DeskView) × (first ≡ record { clerk = clerk.entry; shards = repository.now.shards; rated = false; asked = 0; gave = pos 0; reads = 0; notice = first.notice })
        × (last : DeskView) × Session (TakesFrom Takes peers.Anyone) AtOnce Stays session_limits first
        (T.Source.told console.old.source) (T.Sink.taken console.old.sink)
        last (T.Source.told console.new.source) (T.Sink.taken console.new.sink) result }
{
    let run = &config.run;
    let clock = ProgramClock::new(run.rt, run.options.moment);
    let metrics = config.metrics.worker(0);
    let alerts = &config.alerts;
    let mut desk = ClerkDesk::new(
        run.rt, clerk, repository, latest, None, clock, metrics, alerts,
    );
    let end = serve(
        *run.alloc,
        &mut console.source,
        &mut console.sink,
        &Peer::Anyone,
        &mut desk,
        SESSION_LIMITS,
    );
    drop(desk);
    end
}
