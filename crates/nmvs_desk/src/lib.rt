//! Locked shards, the clerks that ask them with a receipt for each answer, and the settlement of all shards.
//!
//! Every kind of question goes the same way. A clerk asks it (ask.rt). The repository finds the shard of its product code
//! (repository.rt), whose slot holds the lock (lock.rt) while the shard answers (locked.rt). The way back has the place and the
//! reply of the entry that answers it, and the entries that an audit shows. The clerk keeps the receipt of a question that was
//! put until it lets its receipts go.
//!
//! Each shard has a history (`nmvs_history`), whose keeper lies under the shard's lock. A clerk has a token of each history. So
//! what it has seen of a shard begins every later trail of it, and each place of a trail belongs to one token.
//!
//! A log sees the trail of a shard by sights (repository.rt), and borrows a clerk's token (holder.rt).
//!
//! A repository is opened over shards as they are. A token next to each keeper owns the trail of the opening (opening.rt). A
//! settlement takes the shards out of their locks and the tokens back in, and notes the receipt of each entry (settling.rt).
#![tactic(auto)]

mod ask;
mod faults;
mod holder;
mod lock;
mod locked;
mod opening;
mod repository;
mod settled;
mod settling;
mod shown;

pub use ask::{Clerk, Receipt};
pub use faults::OpenFault;
pub use holder::Holder;
pub use lock::Reader;
pub use opening::Keepers;
pub use repository::{MOST_CLERKS, MOST_SHARDS, Repository};
pub use settled::{Owner, Owners, Receipts, Settled, Unsettled};
pub use settling::settle;
pub use shown::Shown;
