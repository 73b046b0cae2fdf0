//! The answers to inspectors about a lawful trail.
//!
//! A [`Filter`] says which entries are wanted, as a definition over entries. [`write_list`] writes them, oldest first,
//! in a [`Form`]. [`write_groups`] counts them by the parts that they share. [`write_packs`] lists the packs of a batch
//! with their status, and [`write_story`] writes the story of one pack. No answer copies the trail: each is made from
//! the shard of an import, a block at a time. [`first_departure`] says whether a later trail continues an earlier one.
#![tactic(auto)]

mod answer_fault;
mod by;
mod comparison;
mod date;
mod filter;
mod form;
mod gathering;
mod groups;
mod html;
mod listing;
mod packs;
mod page;
mod period;
mod placed;
mod premises;
mod replies;
mod reports;
mod rows;
mod selection;
mod story;
mod weeks;

pub use answer_fault::AnswerFault;
pub use by::By;
pub use comparison::{Departure, first_departure};
pub use date::read_date;
pub use filter::Filter;
pub use form::Form;
pub use groups::write_groups;
pub use listing::write_list;
pub use packs::write_packs;
pub use page::{HEAD as PAGE_HEAD, write_page};
pub use period::period_line;
pub use reports::write_report_rows;
pub use selection::takes_any;
pub use story::{story_of, write_story};
