//! A buffer of bytes to send.
ghost use Rattle.nmvs_stream.specs.Sink.{Taken};

use nmvs_stream::{Failed, Sink};

/// A buffer of bytes to send. As a sink it fails if there is no memory for more.
#[derive(Drop)]
pub struct WriteBuffer {
    pub bytes: Vec<u8>,
    flushed: bool,
    failed: bool,
}

impl WriteBuffer {
    ghost use Rattle.std.specs.Prelude.{◌≡◌};

    /// A buffer of the bytes in this vector, with its room.
    pub fn new(room: Vec<u8>) -> WriteBuffer
        ensures { result.bytes ≡ room }
    {
        WriteBuffer {
            bytes: room,
            flushed: true,
            failed: false,
        }
    }
}

impl Sink for WriteBuffer {
    ghost taken = { λ g. record { bytes = g.bytes.items; flushed = g.flushed; failed = g.failed } };

    fn write(&mut self, buffer: &[u8]) -> Result<usize, Failed> {
        match self.bytes.extend_from_slice(buffer) {
            Ok(()) => {
                self.flushed = self.flushed && buffer.is_empty();
                Ok(buffer.len())
            }
            Err(_) => {
                self.failed = true;
                Err(Failed)
            }
        }
    }

    fn flush(&mut self) -> Result<(), Failed> {
        self.flushed = true;
        Ok(())
    }
}
