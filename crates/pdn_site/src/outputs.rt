//! The outputs of a circuit.
ghost use Rattle.std.specs.Prelude.{◌≡◌, ◌++◌, IfOk, OnOk};
ghost use Rattle.pdn_site.specs.Circuits.{list_gates};

use pdn_base::Memory;
use pdn_obl_rows::{Padded, Plane};
use std::alloc::Global;

fn add_words(words: &mut Vec<u32>, more: &[u32]) -> Result<(), Memory>
    ensures { OnOk result (words.new.items ≡ words.old.items ++ more.now) }
{
    words.extend_from_slice(more)?;
    Ok(())
}

/// The gates of a list: those of its valid plane, and then those of its planes.
pub fn list_gates(alloc: Global, list: &Padded) -> Result<Vec<u32>, Memory>
    ensures { IfOk result (λ words. words.items ≡ list_gates list.now) }
{
    let mut words = Vec::from_slice(alloc, list.valid())?;
    for plane in list.planes() {
        add_words(&mut words, plane.words())?;
    }
    Ok(words)
}
