//! A disk of a machine that stops at one of the calls of its disks.
ghost use Rattle.std.specs.Prelude.{◌≡◌, false};
ghost use Rattle.sqlite_disk.specs.Disk.{CountsFault};
ghost use Rattle.sqlite_disk.specs.Refusal.{finds_no_room};

use sqlite_disk::{Crash, Disk, Tally};
use std::cell::Cell;
use std::io;
use std::rc::Rc;

/// What a stop loses.
#[derive(Clone, Copy, Debug, PartialEq, Eq)]
pub(crate) enum Loss {
    /// Nothing that was written, as where the program alone is ended.
    Nothing,
    /// All that wasn't synced, as where the machine goes down.
    Unsynced,
}

/// A file, whose machine's files pass on so many calls together. Then each call fails and changes nothing.
#[derive(Drop)]
pub(crate) struct Stopping<D: Disk> {
    file: D,
    left: Rc<Cell<u64>>,
    refused: u64,
    sync_refused: bool,
}

impl<D: Disk> Stopping<D> {
    /// A file on a machine of which so many calls are left.
    pub(crate) fn new(file: D, left: Rc<Cell<u64>>) -> Stopping<D> {
        Stopping {
            file,
            left,
            refused: 0,
            sync_refused: false,
        }
    }

    /// Whether no call is left.
    pub(crate) fn has_stopped(&self) -> bool {
        self.left.get() == 0
    }
}

impl<D: Crash> Stopping<D> {
    /// The file on the machine that comes back, of which so many calls are left.
    pub(crate) fn back(self, loss: Loss, left: Rc<Cell<u64>>) -> Stopping<D> {
        let Stopping {
            mut file,
            left: _,
            refused: _,
            sync_refused: _,
        } = self;
        if loss == Loss::Unsynced {
            file.crash();
        }
        Stopping::new(file, left)
    }
}

// Takes one of the calls that are left.
fn spend(left: &Cell<u64>, refused: &mut u64) -> io::Result<()>
    ensures faults { CountsFault result refused.old refused.new }
    ensures kind { finds_no_room result ≡ false }
{
    let calls = left.get();
    if calls == 0 {
        *refused = refused.saturating_add(1);
        return Err(io::Error::other("the machine has stopped"));
    }
    left.set(calls - 1);
    Ok(())
}

impl<D: Disk> Disk for Stopping<D> {
    ghost use Rattle.std.specs.Prelude.{◌+◌, ◌&&◌, not};

    ghost seen = { λ s. D.Disk.seen s.file };

    ghost may_leave = { λ s. D.Disk.may_leave s.file };

    ghost is_usable = { λ s. D.Disk.is_usable s.file && not s.sync_refused };

    ghost faults = { λ s. D.Disk.faults s.file + s.refused };

    ghost tally_of = { λ s. D.Disk.tally_of s.file };

    ghost key_of = { λ s. D.Disk.key_of s.file };

    ghost is_rotten = { λ s. D.Disk.is_rotten s.file };

    ghost is_mixing = { λ s. D.Disk.is_mixing s.file };

    ghost is_clean = { λ s. D.Disk.is_clean s.file };

    ghost is_fair = { λ s. D.Disk.is_fair s.file };

    ghost fair_if_clean = { λ s. D.Disk.fair_if_clean s.file };

    ghost seen_may_stay = { λ s. D.Disk.seen_may_stay s.file };

    fn mixes(&self) -> bool {
        self.file.mixes()
    }

    fn key(&self) -> u64 {
        self.file.key()
    }

    fn tally(&self) -> Tally {
        self.file.tally()
    }

    fn may_be_used(&self) -> bool {
        self.file.may_be_used() && !self.sync_refused
    }

    fn len(&mut self) -> io::Result<usize> {
        spend(&self.left, &mut self.refused)?;
        self.file.len()
    }

    fn read_at(&mut self, at: usize, buf: &mut [u8]) -> io::Result<()> {
        spend(&self.left, &mut self.refused)?;
        self.file.read_at(at, buf)
    }

    fn read_checked(&mut self, key: u64, want: u64, at: usize, buf: &mut [u8]) -> io::Result<()> {
        spend(&self.left, &mut self.refused)?;
        self.file.read_checked(key, want, at, buf)
    }

    fn write_at(&mut self, at: usize, bytes: &[u8]) -> io::Result<()> {
        spend(&self.left, &mut self.refused)?;
        self.file.write_at(at, bytes)
    }

    fn set_len(&mut self, len: usize) -> io::Result<()> {
        spend(&self.left, &mut self.refused)?;
        self.file.set_len(len)
    }

    fn sync(&mut self) -> io::Result<()> {
        if let Err(error) = spend(&self.left, &mut self.refused) {
            self.sync_refused = true;
            return Err(error);
        }
        self.file.sync()
    }
}
