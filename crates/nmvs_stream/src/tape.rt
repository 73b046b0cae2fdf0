ghost use Rattle.std.specs.Prelude.{◌≡◌, ◌+◌, [], ◌++◌, ◌∷◌, length};

use boxcar::tag::{Names, Tag};

/// The bytes that a device gave, and one number for each read. It takes no memory: contracts alone know its content.
#[derive(Drop)]
pub struct Tape {
    pub bytes: Tag,
    pub calls: Tag,
}

/// The content of a tag, with more bytes after it.
#[derive(Clone, Copy)]
struct Extended<'a> {
    tag: &'a Tag,
    more: &'a [u8],
}

struct Joined;

impl<'a> Names<Extended<'a>> for Joined {
    ghost numbers = { λ e. e.tag.now.numbers ++ e.more.now };
}

impl Tape {
    pub fn new() -> Tape
        ensures bytes { result.bytes.numbers ≡ [] }
        ensures calls { result.calls.numbers ≡ [] }
    {
        Tape {
            bytes: Tag::empty(),
            calls: Tag::empty(),
        }
    }

    /// Notes a read that gave these bytes.
    pub fn note(&mut self, more: &[u8])
        ensures bytes { self.new.bytes.numbers ≡ self.old.bytes.numbers ++ more.now }
        ensures calls { length self.new.calls.numbers ≡ length self.old.calls.numbers + 1 }
    {
        self.bytes = longer_tag(&self.bytes, more);
        self.calls = longer_tag(&self.calls, &[0]);
    }
}

/// The tag with the old tag's content, and these bytes after it.
pub fn longer_tag(tag: &Tag, more: &[u8]) -> Tag
    ensures { result.numbers ≡ tag.now.numbers ++ more.now }
{
    Tag::of::<Extended<'_>, Joined>(&Extended { tag, more })
}
