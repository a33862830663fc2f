//! Jobs.
ghost use Rattle.std.specs.Prelude.{IfOk};

use pdn_base::Memory;
use std::alloc::Global;

/// A job that any thread may run.
pub trait Job: Sync {
    /// What it gives.
    type Out: Send + Drop;

    ghost gives: { Self → Self.Out → Type 0 };

    /// A result that the job gives, or want of memory.
    fn run(&self, alloc: Global) -> Result<Self::Out, Memory>
        ensures { IfOk result (λ out. gives self.now out) };
}
