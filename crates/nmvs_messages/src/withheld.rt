//! Answers that are withheld until the desk releases them.
ghost use Rattle.std.specs.Prelude.{◌≡◌, ◌==◌, ◌<◌, ◌≤◌, ◌+◌, ◌++◌, ◌∷◌, ◌↔◌, [], false, length, map, take, drop, option_copied, slice_get, None, IsSome, IfNone, IfSome};
ghost use Rattle.nmvs_messages.specs.Withheld.{AreReleased, answer_of, is_kept, is_of_repository as of_repository, plain, speaks_of_trail, tagged, told_where, withheld_on, ends_long, is_long};

use crate::{Answer, Content, Turn};
use arrayvec::ArrayVec;
use nmvs_identifier::Tag;
use std::marker::Model;

/// The most withheld answers: enough for the questions in a read of 4,096 bytes. The line of each has at least 24 bytes.
const MOST_WITHHELD: usize = 176;

/// The entries on which an answer rests: those of a shard's trail up to this place, counted from 0 (own).
#[derive(Clone, Copy)]
pub struct Basis {
    pub shard: usize,
    pub place: usize,
}

/// An answer that has no text before the desk has released it, and the entries on which it rests. Answers that wait for a
/// journal are released after these entries are kept.
#[derive(Drop)]
pub struct Withheld {
    answer: Answer,
    basis: Option<Basis>,
}

/// The value of an unused place of a list.
impl Default for Withheld {
    fn default() -> Withheld {
        Withheld::new(Content::Bye)
    }
}

impl Withheld {
    /// Withholds an answer that rests on no entry, to a line without a tag.
    pub fn new(content: Content) -> Withheld
        ensures { result ≡ plain content }
    {
        Withheld::resting_on(None, content)
    }

    /// Withholds an answer to a line without a tag that rests on these entries, if on any.
    pub fn resting_on(basis: Option<Basis>, content: Content) -> Withheld
        ensures { result ≡ withheld_on basis content }
    {
        let answer = Answer { tag: None, content };
        Withheld { answer, basis }
    }

    /// Sets the tag of the line.
    pub fn set_tag(&mut self, tag: Option<Tag>)
        ensures { self.new ≡ tagged tag self.old }
    {
        self.answer.tag = tag;
    }

    /// Whether it may take long: a report, whose batches are copied, or the help.
    pub fn is_long(&self) -> bool
        ensures { result ≡ is_long self.now.answer }
    {
        matches!(self.answer.content, Content::Reported(..) | Content::Help)
    }

    /// The answer, once it is released.
    pub(crate) fn answer(&self) -> &Answer
        ensures { result.now ≡ self.now.answer }
    {
        &self.answer
    }

    /// Turns the line away if its answer rests on more entries than are kept, or if nobody knows how many are kept.
    fn turn_unkept(&mut self, kept: Option<&[usize]>)
        ensures { self.new.answer ≡ told_where (option_copied kept.entry) self.old }
    {
        if !is_basis_kept(self.basis, kept) && self.speaks_of_trail() {
            self.answer.content = Content::Turned(Turn::Journal);
        }
    }

    /// Whether it is a reply or a report, or rests on entries.
    fn speaks_of_trail(&self) -> bool
        ensures { result ≡ speaks_of_trail self.now }
    {
        is_of_repository(&self.answer) || self.basis.is_some()
    }
}

/// Whether this number of entries of each shard includes those on which an answer rests. No if nobody knows the numbers.
fn is_basis_kept(basis: Option<Basis>, kept: Option<&[usize]>) -> bool
    ensures { result ≡ is_kept (option_copied kept.entry) basis }
{
    match (kept, basis) {
        (None, _) => false,
        (Some(_), None) => true,
        (Some(kept), Some(Basis { shard, place })) => place < kept.get(shard).copied().unwrap_or(0),
    }
}

/// Whether an answer is a reply or a report of the repository.
pub fn is_of_repository(answer: &Answer) -> bool
    ensures { result ≡ of_repository answer.now }
{
    matches!(answer.content, Content::Replied(..) | Content::Reported(..))
}

/// Answers that are withheld, in the order of their lines. A desk releases them together.
#[derive(Drop)]
pub struct WithheldAnswers {
    list: ArrayVec<Withheld, MOST_WITHHELD>,
}

impl Model for WithheldAnswers {
    ghost use Rattle.std.specs.Prelude.{List};
    ghost use Rattle.nmvs_messages.specs.declared.withheld.Withheld.{Withheld as TheWithheld};

    ghost Value = { List TheWithheld };

    ghost view = { λ h. h.list.items };
}

impl WithheldAnswers {
    /// No answer.
    pub fn new() -> WithheldAnswers
        ensures { result ≡ [] }
    {
        WithheldAnswers {
            list: ArrayVec::new(),
        }
    }

    /// Adds one.
    pub fn push(&mut self, withheld: Withheld)
        requires { length self.old < MOST_WITHHELD }
        ensures { self.new ≡ self.old ++ withheld ∷ [] }
    {
        self.list.push(withheld);
    }

    /// The number of answers.
    pub fn len(&self) -> usize
        ensures { result ≡ length self.now }
    {
        self.list.len()
    }

    /// Whether there is none.
    pub fn is_empty(&self) -> bool
        ensures { result ≡ (length self.now == 0) }
    {
        self.list.is_empty()
    }

    /// Whether no more may be withheld.
    pub fn is_full(&self) -> bool
        ensures full { result ≡ (length self.now == MOST_WITHHELD) }
        ensures room { result ≡ false → length self.now < MOST_WITHHELD }
    {
        self.list.is_full()
    }

    /// Whether the last may take long.
    pub fn ends_long(&self) -> bool
        ensures { result ≡ ends_long self.now }
    {
        match self.list.as_slice().last() {
            Some(withheld) => withheld.is_long(),
            None => false,
        }
    }

    /// Removes all of them.
    pub fn clear(&mut self)
        ensures { self.new ≡ [] }
    {
        self.list.clear();
    }

    /// Releases all answers as they are.
    pub fn release(&self) -> Released<'_>
        ensures { AreReleased (λ withheld said. said ≡ withheld.answer) self.now result }
    {
        Released {
            list: self.list.as_slice(),
        }
    }

    /// Releases the answers, if this number of entries of each shard are kept. The line of a reply or a report that rests on
    /// more is turned away. If nobody knows the numbers, the line of each reply and report is.
    pub fn release_kept(&mut self, kept: Option<&[usize]>) -> Released<'_>
        ensures { AreReleased (λ withheld said. said ≡ told_where (option_copied kept.entry) withheld) self.old result }
    {
        turn_all_unkept(self.list.as_mut_slice(), kept);
        Released {
            list: self.list.as_slice(),
        }
    }
}

fn turn_all_unkept(list: &mut [Withheld], kept: Option<&[usize]>)
    ensures { map answer_of list.new ≡ map (told_where (option_copied kept.entry)) list.old }
{
    for withheld in list.iter_mut() {
        withheld.turn_unkept(kept);
    }
}

/// Answers that their desk has released, in the order of their lines.
#[derive(Drop)]
pub struct Released<'h> {
    list: &'h [Withheld],
}

impl<'h> Model for Released<'h> {
    ghost use Rattle.std.specs.Prelude.{List, map};
    ghost use Rattle.nmvs_messages.specs.declared.answer.Answer.{Answer as TheAnswer};
    ghost use Rattle.nmvs_messages.specs.Withheld.{answer_of};

    ghost Value = { List TheAnswer };

    ghost view = { λ r. map answer_of r.list.now };
}

impl<'h> Released<'h> {
    /// This number of answers from this place on, if there are enough.
    pub fn part(&self, first: usize, count: usize) -> Option<Released<'h>>
        ensures there { IsSome result ↔ (first + count ≤ length self.now) }
        ensures part { IfSome result (λ part. part ≡ take count (drop first self.now)) }
    {
        let list = self.list.get(first..)?.get(..count)?;
        Some(Released { list })
    }

    /// The number of answers.
    pub fn len(&self) -> usize
        ensures { result ≡ length self.now }
    {
        self.list.len()
    }

    /// The answer at this place, if there is one.
    pub fn answer(&self, place: usize) -> Option<&Answer>
        ensures { option_copied result ≡ slice_get self.now place }
    {
        match self.list.get(place) {
            Some(withheld) => Some(withheld.answer()),
            None => None,
        }
    }

    /// The first answer and the rest, if there is one.
    pub fn split_first(&self) -> Option<(&'h Answer, Released<'h>)>
        ensures first { IfSome result (λ cut. self.now ≡ cut.0.now ∷ cut.1) }
        ensures none { IfNone result (self.now ≡ []) }
    {
        let (first, later) = self.list.split_first()?;
        Some((first.answer(), Released { list: later }))
    }
}
