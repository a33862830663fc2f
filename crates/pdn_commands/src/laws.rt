//! What the tape may change, and what it may not.
ghost use Rattle.pdn_commands.specs.Commands.{SameOnTapes};
ghost use Rattle.pdn_commands.specs.Twinning.{EqualViewsLaw};

use pdn_worlds::{agreeing_unions_are_worlds, sites_see_the_same};

/// Where no view is put, that is, without `show` and but for `twin`, a command's script is the same on every tape, and so is what `pdn`
/// promises of it: no word that the dealer deals shows in what is put, answered and kept.
#[tactic(auto, using(crate::proofs::Tapes::same_on_tapes))]
pub fn scripts_are_the_same_on_every_tape()
    ensures { SameOnTapes }
{}

/// Both views that `twin` puts of a query are equal, whatever the tape.
pub fn twins_have_equal_views()
    ensures { EqualViewsLaw }
{
    agreeing_unions_are_worlds();
    sites_see_the_same();
}
