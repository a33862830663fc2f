//! What a half asks of its caller.
use pdn_base::Word;

/// The next step of a half.
#[derive(Drop)]
pub enum Step<'a> {
    /// This frame goes to the other half.
    Send(&'a [Word]),
    /// The other half's frame, of so many words, is to be taken.
    Want(u32),
    /// There is no further frame.
    Done,
}

/// A frame that was not taken.
#[derive(Clone, Copy, Debug, PartialEq, Eq)]
pub enum FrameErr {
    /// It has `got` words, and not `want`.
    Length { got: u32, want: u32 },
}
