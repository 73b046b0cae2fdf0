use crate::failed::Failed;
use crate::sink::Sink;
use crate::source::Source;
use crate::tape::{Tape, longer_tag};
use boxcar::tag::Tag;
use std::io::{Read, Write};

/// A reader or a writer of std as a source or a sink. Its contracts bind code that is generic over `Source` or `Sink`. For
/// a reader or writer in memory they say which bytes it gave or took. No contract covers the bytes that a file or a socket
/// really gave. It repeats no call.
#[derive(Drop)]
pub struct Device<D> {
    inner: D,
    given: Tape,
    taken: Tag,
    ended: bool,
    flushed: bool,
    failed: bool,
}

impl<D> Device<D> {
    ghost use Rattle.std.specs.Prelude.{◌≡◌};
    ghost use Rattle.nmvs_stream.specs.Source.{untouched_source};
    ghost use Rattle.nmvs_stream.specs.Sink.{untouched_sink};
    ghost use Rattle.nmvs_stream.specs.Device.{told_of, taken_of};

    /// A device of which nothing was read, to which nothing was written, and which has not failed.
    pub fn new(inner: D) -> Device<D>
        ensures source { told_of result ≡ untouched_source }
        ensures sink { taken_of result ≡ untouched_sink }
    {
        Device {
            inner,
            given: Tape::new(),
            taken: Tag::empty(),
            ended: false,
            flushed: true,
            failed: false,
        }
    }
}

impl<D: Read> Source for Device<D> {
    ghost use Rattle.nmvs_stream.specs.Device.{told_of};

    ghost told = { told_of };

    ghost left = { λ d. D.remaining d.inner };

    fn read(&mut self, buffer: &mut [u8]) -> Result<usize, Failed> {
        match self.inner.read(buffer) {
            Ok(count) => {
                self.given.note(&buffer[..count]);
                if count == 0 {
                    self.ended = true;
                }
                Ok(count)
            }
            Err(_) => {
                self.given.note(&[]);
                self.failed = true;
                Err(Failed)
            }
        }
    }
}

impl<D: Write> Sink for Device<D> {
    ghost use Rattle.nmvs_stream.specs.Device.{taken_of};

    ghost taken = { taken_of };

    ghost held = { λ d. D.contents d.inner };

    fn write(&mut self, buffer: &[u8]) -> Result<usize, Failed> {
        match self.inner.write(buffer) {
            Ok(count) if count > 0 || buffer.is_empty() => {
                self.taken = longer_tag(&self.taken, &buffer[..count]);
                self.flushed = self.flushed && count == 0;
                Ok(count)
            }
            _ => {
                self.failed = true;
                Err(Failed)
            }
        }
    }

    fn flush(&mut self) -> Result<(), Failed> {
        match self.inner.flush() {
            Ok(()) => {
                self.flushed = true;
                Ok(())
            }
            Err(_) => {
                self.failed = true;
                Err(Failed)
            }
        }
    }
}
