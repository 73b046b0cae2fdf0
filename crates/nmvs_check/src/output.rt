//! Standard output, whose reader may leave.
use std::io::{self, ErrorKind, Write};
use std::rt::Stdout;

/// Standard output.
#[derive(Drop)]
pub(crate) struct Output {
    pub inner: Stdout,
    /// Whether its reader left before the last write, as `head` does once it has its lines.
    pub is_left: bool,
}

impl Write for Output {
    fn write(&mut self, bytes: &[u8]) -> io::Result<usize> {
        let written = self.inner.write(bytes);
        if let Err(error) = &written {
            self.is_left = error.kind() == ErrorKind::BrokenPipe;
        }
        written
    }

    fn flush(&mut self) -> io::Result<()> {
        self.inner.flush()
    }
}
