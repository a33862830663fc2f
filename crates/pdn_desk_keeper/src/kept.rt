//! What is kept of a call.
ghost use Rattle.std.specs.Prelude.{◌≡◌, IfOk};

use pdn_base::Memory;
use std::alloc::Global;
use std::marker::Model;

/// What is kept of a caller's call: its query's text, and the body of the reply.
#[derive(Debug, Drop)]
pub struct Kept {
    pub text: Vec<u8>,
    pub body: Vec<u8>,
}

impl Model for Kept {
    ghost use Rattle.pdn_desk_keeper.specs.Desks.{KeptText};

    ghost Value = { KeptText };

    ghost view = { λ k. record { text = k.text.items; body = k.body.items } };
}

impl Kept {
    /// An equal value.
    pub(crate) fn copy(&self, alloc: Global) -> Result<Kept, Memory>
        ensures { IfOk result (λ copy. copy ≡ self.now) }
    {
        Ok(Kept {
            text: self.text.to_vec(alloc)?,
            body: self.body.to_vec(alloc)?,
        })
    }
}
