//! The buffers that the connections of a worker share.
use nmvs_messages::{Piece, READ_SIZE};
use std::alloc::{AllocError, Global};
use std::time::Instant;

/// Bytes of room for the replies of one release, without lists and reports: at most those to one read. The shortest line, an
/// LF alone, has a reply of 13 bytes (own).
const ROOM: usize = 13 * READ_SIZE;

/// The time and the buffers with which a worker serves its connections, one after the other.
#[derive(Drop)]
pub(crate) struct Scratch {
    pub(crate) alloc: Global,
    pub(crate) now: Instant,
    pub(crate) buffer: [u8; READ_SIZE],
    pub(crate) room: Vec<u8>,
    /// The room for one piece of a list.
    pub(crate) piece: Piece,
    /// Whether a connection got a report in this turn. None gets a second one, so that others do not wait for it.
    pub(crate) reported: bool,
}

impl Scratch {
    /// # Errors
    ///
    /// There is no memory for a piece.
    pub(crate) fn new(alloc: Global, now: Instant) -> Result<Scratch, AllocError> {
        let piece = Piece::new(alloc)?;
        Ok(Scratch {
            alloc,
            now,
            buffer: [0; READ_SIZE],
            room: Vec::new(alloc),
            piece,
            reported: false,
        })
    }

    /// Makes room for the next replies, no more than they take as a rule.
    pub(crate) fn make_room(&mut self) -> Result<(), AllocError> {
        if self.room.capacity() > 2 * ROOM {
            self.room = Vec::new(self.alloc);
        }
        self.room.clear();
        self.room.reserve(ROOM)?;
        Ok(())
    }
}
