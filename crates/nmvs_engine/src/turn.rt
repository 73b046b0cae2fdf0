//! The turn of a server as the owner of the logs.
ghost use Rattle.std.specs.Prelude.{◌≡◌, IsTrue, IfSome, string_bytes};
ghost use Rattle.nmvs_cluster.specs.Steps.{AreCopied, IsFreedLast, IsTrimmedTo};
ghost use Rattle.nmvs_etcd.specs.declared.key.Log.TheVariants.{Entries};

use crate::Wire;
use nmvs_cluster::{Trimming, give_up, trim_log};
use nmvs_etcd::{Log, OwnerName};
use std::alloc::Global;

/// The number of tries of a step. A follower takes over in the end, also if all tries to give the turn up fail (own).
const TRIES: u32 = 3;

/// The turn of a server as the owner of the logs, and a connection for its steps other than appending.
#[derive(Drop)]
pub struct Turn<'r> {
    connection: Wire<'r>,
    cluster: String,
    name: OwnerName,
}

impl<'r> Turn<'r> {
    /// The turn of the owner of this name.
    pub fn new(connection: Wire<'r>, cluster: String, name: OwnerName) -> Turn<'r>
        ensures connection { result.connection ≡ connection.entry }
        ensures cluster { result.cluster ≡ cluster }
        ensures name { result.name ≡ name }
    {
        Turn {
            connection,
            cluster,
            name,
        }
    }

    /// Gives the turn up, so that a follower takes over at once. All lines of the logs are confirmed before. Returns whether the
    /// engine confirmed it.
    pub fn give_up(&mut self, alloc: Global) -> bool
        ensures freed { IsTrue result → IsFreedLast (string_bytes self.old.cluster) self.old.name self.new.connection.sent.numbers self.new.connection.heard.numbers }
        ensures cluster { self.new.cluster ≡ self.old.cluster }
        ensures name { self.new.name ≡ self.old.name }
    {
        let cluster = self.cluster.as_str();
        give_up(alloc, &mut self.connection, cluster, &self.name, TRIES)
    }

    /// Trims the log of entries to the blocks that each of these numbers of copied blocks has. Returns the number of blocks that
    /// are trimmed then. `None` if there is nothing to trim, the server is not the owner any more, or the engine is lost.
    pub fn trim(&mut self, alloc: Global, copies: &[u64]) -> Option<u64>
        ensures copied { IfSome result (λ to. AreCopied to copies.now) }
        ensures trimmed { IfSome result (λ to. IsTrimmedTo (string_bytes self.old.cluster) Entries self.old.name to self.new.connection.sent.numbers self.new.connection.heard.numbers) }
        ensures cluster { self.new.cluster ≡ self.old.cluster }
        ensures name { self.new.name ≡ self.old.name }
    {
        let trimming = Trimming {
            cluster: self.cluster.as_str(),
            log: Log::Entries,
            owner: &self.name,
            copies,
        };
        trim_log(alloc, &mut self.connection, &trimming, TRIES)
    }
}
