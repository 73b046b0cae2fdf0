//! The story of a pack.
ghost use Rattle.std.specs.Prelude.{◌≡◌, ◌++◌, List, OnOk};
ghost use Rattle.nmvs_stream.specs.Delivery.{Delivers};
ghost use Rattle.nmvs_inspect.specs.Rows as rows;
ghost use Rattle.nmvs_inspect.specs.Story as story;

use crate::listing::write_selected;
use crate::rows::{append_header, append_replied};
use crate::{AnswerFault, Filter, Form};
use nmvs_identifier::Pack;
use nmvs_rules::{PackQuestion, Put, Question, Reply};
use nmvs_shard::Shard;
use nmvs_stream::{Sink, deliver};
use std::alloc::{AllocError, Allocator, Global};

/// Writes the story of a pack, in a form: the entries about it and those that recall or withdraw its batch, oldest
/// first. The last row has the reply that a question for its status gets at the end of the trail. The source is
/// Articles 35(1)(g), 36 and 40, and the form is own.
///
/// It takes memory as a list does.
///
/// # Errors
///
/// There is no memory for the references or a row, or a write failed.
pub fn write_story<A: Allocator, W: Sink>(
    alloc: Global,
    shard: &Shard<A>,
    pack: &Pack,
    form: Form,
    sink: &mut W,
) -> Result<(), AnswerFault>
    ensures { OnOk result ((ds : List rows.Dated) × rows.AreTaken (story.story_of pack.now) shard.now ds
        × Delivers (W.taken sink.old) (W.taken sink.new)
        (story.story_text form pack.now (story.status_of shard.now pack.now) ds)) }
{
    let filter = story_of(pack);
    let status = status_of(shard, pack);
    let mut block = Vec::new(alloc);
    append_header(alloc, &mut block, form)?;
    write_selected(alloc, &mut block, shard, &filter, form, sink)?;
    append_status(alloc, &mut block, form, pack, &status)?;
    Ok(deliver(sink, &block)?)
}

/// The filter of the entries about a pack and of those that recall or withdraw its batch.
pub fn story_of(pack: &Pack) -> Filter
    ensures { result ≡ story.story_of pack.now }
{
    Filter {
        pack: Some(*pack),
        ..Filter::new()
    }
}

/// The reply that a question for the status of a pack gets at the end of a trail. It is the same whoever asks and when: user
/// and moment are those of the first entry.
fn status_of<A: Allocator>(shard: &Shard<A>, pack: &Pack) -> Reply
    ensures { result ≡ story.status_of shard.now pack.now }
{
    match shard.entry_at(0) {
        None => Reply::NoPack,
        Some(first) => shard.reply_to(&Put {
            question: Question::OfPack(PackQuestion::Status, *pack),
            ..first.put
        }),
    }
}

/// Puts the row of the status of a pack at the end of a block.
fn append_status(
    alloc: Global,
    block: &mut Vec<u8>,
    form: Form,
    pack: &Pack,
    status: &Reply,
) -> Result<(), AllocError>
    ensures { OnOk result (block.new.items ≡ block.old.items ++ rows.row form (story.status_cells form pack.now status.now)) }
{
    let front: [&[u8]; 9] = [
        b"at the end",
        b"",
        b"",
        b"",
        b"",
        b"STATUS",
        pack.code.text().as_bytes(),
        pack.serial.text().as_bytes(),
        b"",
    ];
    append_replied(alloc, block, form, &front, status)
}
