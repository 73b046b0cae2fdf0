//! The messages of a session: the asks of lines, the answers of a desk, and the commands of a registrar.
//!
//! A [`Desk`] answers an [`Ask`]. Its answers are [`Withheld`] until they are [`Released`]. [`read_command`] reads the
//! [`Command`] of a line.
#![tactic(auto)]

mod answer;
mod ask;
mod command;
mod commands;
mod desk;
mod end;
mod fault;
mod fields;
mod gathered;
mod laws;
mod limits;
mod line_list;
mod peer;
mod pending_line;
mod piece;
mod tags;
mod withheld;

pub use answer::{Answer, Content, ShownText, Text, Turn};
pub use ask::{Ask, Asked, Line, LineFault, Unread};
pub use command::{Command, CommandFault};
pub use commands::{command_of, read_command};
pub use desk::Desk;
pub use end::End;
pub use fault::{FAULTS, Fault, Problem};
pub use fields::{Fields, KEPT_FIELDS, fields_of, fill_fields};
pub use gathered::GatheredEntries;
pub use laws::commands_are_read;
pub use limits::{
    LONGEST_LINE, Limits, MOST_LINES, MOST_READS, NO_LIMITS, READ_SIZE, SESSION_LIMITS,
};
pub use line_list::LineList;
pub use peer::{NameOf, Peer};
pub use pending_line::PendingLine;
pub use piece::{PIECE, PIECE_BYTES, Piece};
pub use tags::{LONGEST_TAG_TEXT, tag_text};
pub use withheld::{Basis, Released, Withheld, WithheldAnswers, is_of_repository};
