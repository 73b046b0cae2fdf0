//! Blocks of a log that etcd keeps on several machines: requests to etcd, and the meaning of its answers.
//!
//! One server at a time owns the logs. It appends a block only while it is the owner and the log ends before the block.
#![tactic(auto)]

mod answer;
mod ask;
mod block;
mod connection;
mod demand;
mod http;
mod key;
mod laws;
mod outcome;
mod owner_name;
mod read;
mod request;
mod transaction;

pub use ask::{ask_blocks, ask_number, ask_value};
pub use block::Block;
pub use connection::{Broken, Connection};
pub use demand::{Demand, Trim, carry_out, demand_outcome, demand_request};
pub use http::{Answer, MOST_ANSWER, Procedure, exchange};
pub use key::{Key, Log};
pub use laws::{answers, demands, names, no_owner, requests, trims, turns};
pub use outcome::Outcome;
pub use owner_name::{NOBODY, NameFault, OwnerName};
pub use read::{shown_blocks, shown_number, shown_value};
pub use request::{BlockRange, blocks_request, read_request};
