/// The reason for which a session ended.
#[derive(Clone, Copy, PartialEq, Eq)]
pub enum End {
    /// QUIT was answered.
    Quit,
    /// The input ended, and all its lines are answered.
    Ended,
    /// A read failed.
    ReadFault,
    /// A write or a flush failed.
    WriteFault,
    /// Another line or another read was needed, and the limits allow no more.
    Limit,
    /// There was no memory for the session, and nothing was read.
    Memory,
}
