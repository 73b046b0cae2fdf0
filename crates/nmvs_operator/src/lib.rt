//! The operator's side of the server: options of the command line, a users file, commands.
//!
//! [`OPTIONS`] are the options. [`config_path`] finds the file of options that a command line names, and [`read_config`] reads
//! its text. [`with_config`] puts the words of its options in front of those of the command line, so that [`read_options`]
//! judges both together. [`load_users`] publishes the users of a file, all at once, by a
//! `nmvs_directory::Registrar`; [`users_faults`] lists all that is wrong with one. [`obey_all`] carries out the
//! [`Order`]s of a `Console` as they come. It shows the notice of changed users by a [`Latest`] before it answers. It
//! asks a [`Service`] for all that only a server can do or count. [`obey_following`] serves the console of a server that follows
//! another.
//!
//! It serves no lines: `nmvs_server` decides what is served, and when commands are read.
#![tactic(auto)]

mod address;
mod cluster_name;
mod command_line;
mod commands;
mod config;
mod faults;
mod figures;
mod latest;
mod lines;
mod options;
mod order;
mod reload;
mod roll;
mod service;
mod users;
mod users_check;

pub use command_line::{OptionFault, VERSION, read_options};
pub use commands::{obey_all, obey_following};
pub use config::{ConfigFault, EntryFault, config_path, read_config, with_config};
pub use faults::{LoadFault, ObeyFault};
pub use figures::Figure;
pub use latest::Latest;
pub use options::{Cluster, MOST_SHARDS, OPTIONS, Options, Row, Value};
pub use order::{Fixed, Order, read_order};
pub use roll::{UserCounts, count_users, enrolment_text};
pub use service::{Perform, Service, ServiceFault};
pub use users::{load_users, read_all, users_trouble};
pub use users_check::{UsersFault, changes_nothing, users_faults};
