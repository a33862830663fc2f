//! Words of both sites.
ghost use Rattle.std.specs.Prelude.{◌≡◌, IfOk};
ghost use Rattle.pdn_broker.specs.Answering.{nothing_given};

use pdn_base::{Memory, Word};
use std::alloc::Global;
use std::marker::Model;

/// A list of words of each site.
#[derive(Drop)]
pub struct Shares {
    pub a: Vec<Word>,
    pub b: Vec<Word>,
}

impl Model for Shares {
    ghost use Rattle.pdn_broker.specs.Runs.{Both};

    ghost Value = { Both };

    ghost view = { λ s. record { a = s.a.items; b = s.b.items } };
}

impl Shares {
    /// No words.
    pub fn new(alloc: Global) -> Shares
        ensures { result ≡ nothing_given }
    {
        Shares {
            a: Vec::new(alloc),
            b: Vec::new(alloc),
        }
    }

    /// Equal words.
    pub fn copy(&self, alloc: Global) -> Result<Shares, Memory>
        ensures { IfOk result (λ copied. copied ≡ self.now) }
    {
        Ok(Shares {
            a: Vec::from_slice(alloc, self.a.as_slice())?,
            b: Vec::from_slice(alloc, self.b.as_slice())?,
        })
    }
}
