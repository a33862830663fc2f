//! Where a half stands between two calls.

/// What the last step was, or that the next one is still to be found.
#[derive(Clone, Copy, Debug, PartialEq, Eq)]
pub enum Stage {
    Ready,
    Sent,
    Wanting,
    Over,
}
