//! Kinds of replies.
ghost use Rattle.std.specs.Prelude.{◌≡◌};
ghost use Rattle.nmvs_words.specs.ReplyKinds.{kind_of_reply, reply_word, reply_named};

use crate::row::named;
use nmvs_rules::Reply;

/// A reply without its values. Each kind has a word, and decides which values follow it.
#[derive(Clone, Copy)]
pub enum ReplyKind {
    Uploaded,
    Authentic,
    Alert,
    Status,
    NoPack,
    Decommissioned,
    HandedOver,
    Reverted,
    Locked,
    Stolen,
    Shown,
    Refused,
}

/// The kinds of replies, each with its word and its source; the words are own.
pub const REPLIES: [(&str, ReplyKind); 12] = [
    ("UPLOADED", ReplyKind::Uploaded), // Article 33
    ("AUTHENTIC", ReplyKind::Authentic), // Article 11
    ("ALERT", ReplyKind::Alert), // Article 36
    ("STATUS", ReplyKind::Status), // Article 36
    ("NOPACK", ReplyKind::NoPack), // own, after Article 36
    ("DECOMMISSIONED", ReplyKind::Decommissioned), // Articles 22 and 25
    ("HANDED_OVER", ReplyKind::HandedOver), // own, after Article 25
    ("REVERTED", ReplyKind::Reverted), // Article 13
    ("LOCKED", ReplyKind::Locked), // Article 40
    ("STOLEN", ReplyKind::Stolen), // Article 40
    ("SHOWN", ReplyKind::Shown), // Article 35
    ("REFUSED", ReplyKind::Refused), // own
];

impl ReplyKind {
    /// The kind of a reply.
    pub fn of(reply: &Reply) -> ReplyKind
        ensures { result ≡ kind_of_reply reply.now }
    {
        match reply {
            Reply::Uploaded => ReplyKind::Uploaded,
            Reply::Authentic { .. } => ReplyKind::Authentic,
            Reply::Alert { .. } => ReplyKind::Alert,
            Reply::StatusIs { .. } => ReplyKind::Status,
            Reply::NoPack => ReplyKind::NoPack,
            Reply::Decommissioned => ReplyKind::Decommissioned,
            Reply::HandedOver => ReplyKind::HandedOver,
            Reply::Reverted => ReplyKind::Reverted,
            Reply::LockedNow(_) => ReplyKind::Locked,
            Reply::MarkedStolen => ReplyKind::Stolen,
            Reply::Shown(_) => ReplyKind::Shown,
            Reply::Refused(_) => ReplyKind::Refused,
        }
    }

    /// The kind's word.
    pub fn word(self) -> &'static str
        ensures { result.now ≡ reply_word self }
    {
        REPLIES[self as usize].0
    }

    /// The kind that has this word.
    pub fn named(word: &str) -> Option<ReplyKind>
        ensures { result ≡ reply_named word.now }
    {
        named(&REPLIES, word.as_bytes())
    }
}
