//! How a connection ends.

/// How a connection of the desk ends.
#[derive(Clone, Copy, Debug, PartialEq, Eq)]
pub enum DeskEnd {
    /// The peer ended before its first byte. Nothing was sent.
    Silent,
    /// The link failed before a request was read. Nothing was sent.
    Unread,
    /// The whole reply of this status was sent.
    Replied { status: u16 },
    /// The link failed while the reply of this status was sent: a front of it is out.
    Lost { status: u16 },
}
