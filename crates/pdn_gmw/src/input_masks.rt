//! The words r of one site's Input gates.
ghost use Rattle.std.specs.Prelude.{◌≡◌, ◌<◌, ◌++◌, true, ℕ, length, slice_index, slice_index_or, IfOk, OnOk};
ghost use Rattle.std.specs.List.{flat_map};
ghost use Rattle.pdn_circuit.specs.Gates.{is_input};
ghost use Rattle.pdn_gmw.specs.Shares.{r_here};
ghost use Rattle.pdn_gmw.specs.Layers.{Leaf};
ghost use Rattle.pdn_gmw.specs.Known.{leaf_r, MasksThere};

use crate::layers::Leaf;
use pdn_base::{Memory, Site, Word};
use pdn_circuit::Gate;
use std::alloc::Global;

/// Of the words r of all Input gates those of one site's.
pub fn r_words(alloc: Global, leaves: &[Leaf], site: Site, r: &[Word]) -> Result<Vec<Word>, Memory>
    requires { MasksThere r.now leaves.now }
    ensures { IfOk result (λ words. words.items ≡ flat_map (leaf_r site r.now) leaves.now) }
{
    let mut words = Vec::new(alloc);
    for leaf in leaves {
        add_r(&mut words, site, r, leaf)?;
    }
    Ok(words)
}

// Adds the word of this gate, if it is an Input gate of the site.
fn add_r(words: &mut Vec<Word>, site: Site, r: &[Word], leaf: &Leaf) -> Result<(), Memory>
    requires { is_input leaf.now.gate ≡ true → leaf.now.inputs < length r.now }
    ensures { OnOk result (words.new.items ≡ words.old.items ++ leaf_r site r.now leaf.now) }
{
    match (site, leaf.gate) {
        (Site::A, Gate::Input { site: Site::A, .. })
        | (Site::B, Gate::Input { site: Site::B, .. }) => words.push(r[leaf.inputs as usize])?,
        _ => {}
    }
    Ok(())
}
