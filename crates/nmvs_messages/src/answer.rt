//! The answers to lines.
ghost use Rattle.std.specs.Prelude.{◌≡◌, string_bytes};
ghost use Rattle.nmvs_messages.specs.Withheld.{text_left};

use crate::{LineFault, LineList};
use boxcar::tag::{self, Names};
use nmvs_identifier::Tag;
use nmvs_rules::Reply;
use std::marker::Model;

/// The answer to a line, and the tag of the line, if it has one.
#[derive(Drop)]
pub struct Answer {
    pub tag: Option<Tag>,
    pub content: Content,
}

/// The content of the answer to a line.
#[derive(Drop)]
pub enum Content {
    /// The repository's reply to a question, and the text of the entries that it shows. Only an audit shows entries.
    Replied(Reply, ShownText),
    /// The report of a product code: its first line, with LF, and the text of the lines that follow. The line's tag stands in
    /// front of each of those.
    Reported(Text, ShownText),
    /// The desk turned the line away.
    Turned(Turn),
    /// The line cannot be read.
    Unread(LineFault),
    /// The answer to PING.
    Pong,
    /// The answer to VERSION.
    Version,
    /// The answer to HELP, several lines.
    Help,
    /// The answer to QUIT.
    Bye,
}

/// The reason for which the desk turned a line away. Unless it is `Journal`, no question was put.
#[derive(Clone, Copy)]
pub enum Turn {
    /// The clock's seconds are no moment.
    Clock,
    /// No user has the name.
    Nobody,
    /// The user is suspended.
    Suspended,
    /// The directory of users couldn't be entered.
    Closed,
    /// The user's role may not ask this.
    Role,
    /// Out of memory.
    Memory,
    /// The user has asked more lines than its rate lets through.
    Rate,
    /// The journal failed, and the entries under the answer are not kept. The operation may stand in the record or not.
    Journal,
    /// The user has asked something else about the pack with the tag.
    Tag,
    /// The pack was uploaded with another batch or another expiry date than those printed on it.
    Differs,
    /// The user got the state of the pack with the tag, and the reply would now be an alert.
    Changed,
    /// The product is none of those that the user may upload.
    Product,
}

/// The text of the lines after an answer's own: the entries that an audit shows, oldest first (Article 35), or the
/// batches of a report. It has no bytes, and contracts alone see it. The lines are fetched from the list that the desk
/// gives with the answer.
#[derive(Drop)]
pub struct ShownText {
    text: tag::Tag,
}

impl Model for ShownText {
    ghost use Rattle.std.specs.Prelude.{ℕ, List};

    ghost Value = { List ℕ };

    ghost view = { λ s. s.text.numbers };
}

struct TextOf;

impl<L: LineList> Names<L> for TextOf {
    ghost numbers = { λ l. L.left l };
}

impl ShownText {
    /// The text that a list has left; none without a list.
    pub fn of<L: LineList>(list: &Option<L>) -> ShownText
        ensures { result ≡ text_left L.left list.now }
    {
        let text = match list {
            Some(list) => tag::Tag::of::<L, TextOf>(list),
            None => tag::Tag::empty(),
        };
        ShownText { text }
    }
}

/// A text that is written as it is.
#[derive(Drop)]
pub struct Text {
    text: String,
}

impl Model for Text {
    ghost use Rattle.std.specs.Prelude.{ℕ, List, string_bytes};

    ghost Value = { List ℕ };

    ghost view = { λ t. string_bytes t.text };
}

impl Text {
    /// The text of a string, which is not copied.
    pub fn new(text: String) -> Text
        ensures { result ≡ string_bytes text }
    {
        Text { text }
    }

    /// The text.
    pub fn text(&self) -> &str
        ensures { result.now ≡ self.now }
    {
        self.text.as_str()
    }
}
