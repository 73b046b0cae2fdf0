//! The opening of a server's repository.
ghost use Rattle.std.specs.Prelude.{◌≡◌, ◌≤◌, ℕ, length, map, vec_len, All, IfOk};
ghost use Rattle.nmvs_desk.specs.Opening.{table_of, IsNew};
ghost use Rattle.nmvs_desk.specs.Placing.{IsPartOf};
ghost use Rattle.nmvs_desk.specs.Settlement.{row};

use nmvs_desk::{Clerk, Keepers, MOST_CLERKS, Repository};
use nmvs_directory::{Naming, Window};
use nmvs_history::Histories;
use nmvs_shard::Shard;
use std::alloc::{AllocError, Global};

/// The values with which a repository is opened.
#[derive(Drop)]
pub struct Opening<'a, J: Naming> {
    /// A window for each clerk.
    pub windows: Vec<Window<J, &'a Global>, &'a Global>,
    /// Each shard, as it was found.
    pub shards: Vec<Shard<&'a Global>, &'a Global>,
    /// A keeper for each shard.
    pub keepers: Keepers<'a>,
}

/// An open repository, and its clerks.
#[derive(Drop)]
pub struct Opened<'a, J: Naming, H: Histories> {
    pub repository: Repository<'a, H>,
    pub clerks: Vec<Clerk<'a, J, H>, &'a Global>,
}

impl<'a, J: Naming> Opening<'a, J> {
    /// Opens the repository over the shards, as they are, with a clerk for each window, in order.
    ///
    /// # Errors
    ///
    /// There is no memory.
    pub fn open<H: Histories>(self, alloc: &'a Global) -> Result<Opened<'a, J, H>, AllocError>
        requires tables { (i : ℕ) → table_of self.keepers i ≡ H.tables i }
        requires named { (H.shards ≡ length self.keepers) × (H.clerks ≡ vec_len self.windows) × ((i : ℕ) → H.opening i ≡ row self.shards.items i) }
        requires many { vec_len self.shards ≡ length self.keepers }
        requires placed { (i : ℕ) → IsPartOf (length self.keepers) i (row self.shards.items i) }
        requires few { vec_len self.windows ≤ MOST_CLERKS }
        ensures many { IfOk result (λ opened. vec_len opened.clerks ≡ vec_len self.entry.windows) }
        ensures shards { IfOk result (λ opened. opened.repository.shards ≡ length self.entry.keepers) }
        ensures clerks { IfOk result (λ opened. (opened.repository.clerks ≡ vec_len self.entry.windows) × (map (λ c. c.seen) opened.clerks.items ≡ self.entry.windows.items)) }
        ensures new { IfOk result (λ opened. All (IsNew (length self.entry.keepers) (row self.entry.shards.items)) opened.clerks.items) }
    {
        let Opening {
            mut windows,
            shards,
            keepers,
        } = self;
        let (repository, clerks) = Repository::open(alloc, keepers, shards, &mut windows)?;
        Ok(Opened { repository, clerks })
    }
}
