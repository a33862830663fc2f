//! What a store may have kept, as a number that rises: the next ticket, or 1 where a batch or a call is kept.
use std::test::Fail;

/// From what was answered and refused so far.
#[derive(Clone, Copy, Debug)]
pub(crate) struct Bounds {
    least: u64,
    most: u64,
    // the most as the machine came back, or as it last answered
    base: u64,
    // a call failed since the machine came back
    failed: bool,
}

impl Bounds {
    /// Nothing is kept.
    pub(crate) fn new() -> Bounds {
        Bounds {
            least: 0,
            most: 0,
            base: 0,
            failed: false,
        }
    }

    /// The machine has come back.
    pub(crate) fn begin(&mut self) {
        self.base = self.most;
        self.failed = false;
    }

    /// The store has this, which it may have.
    pub(crate) fn find(&self, found: u64) -> Result<(), Fail> {
        if self.least <= found && found <= self.most {
            Ok(())
        } else {
            Err(Fail::new("what stands is as before or after"))
        }
    }

    /// A call was answered; this is kept now.
    pub(crate) fn answer(&mut self, kept: u64) {
        self.least = kept;
        self.most = kept;
        self.base = kept;
    }

    /// A call was refused: at most one more is kept, however many calls are refused until the machine comes back.
    pub(crate) fn refuse(&mut self) {
        self.most = self.base.saturating_add(1);
        self.failed = true;
    }

    /// A call failed that keeps nothing.
    pub(crate) fn fail(&mut self) {
        self.failed = true;
    }

    /// Whether it is sure what is kept, and no call failed since the machine came back.
    pub(crate) fn is_sure(&self) -> bool {
        self.least == self.most && !self.failed
    }
}
