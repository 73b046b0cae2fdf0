//! Bytes that contracts alone see.
ghost use Rattle.std.specs.Prelude.{◌≡◌, ◌++◌};

use boxcar::tag::{Names, Tag};

/// A tag, and the bytes after its own.
#[derive(Clone, Copy)]
struct Longer<'t> {
    tag: &'t Tag,
    more: &'t [u8],
}

struct Joined;

impl<'t> Names<Longer<'t>> for Joined {
    ghost numbers = { λ l. l.tag.now.numbers ++ l.more.now };
}

/// A tag with the bytes of this tag, and these bytes after them.
pub fn extended(tag: &Tag, more: &[u8]) -> Tag
    ensures { result.numbers ≡ tag.now.numbers ++ more.now }
{
    Tag::of::<Longer<'_>, Joined>(&Longer { tag, more })
}
