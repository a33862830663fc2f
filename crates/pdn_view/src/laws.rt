//! A law on the units of a view.
ghost use Rattle.std.specs.Prelude.{◌≡◌, map};
ghost use Rattle.pdn_site.specs.Models.{Dirs};
ghost use Rattle.pdn_site.specs.Directories.{unit_values};
ghost use Rattle.pdn_view.specs.Views.{slices, AreDirs};
ghost use Rattle.pdn_view.specs.Units.{unit_due};

/// The units that a view has of a segment are those of the values in either directory, ascending: where the directories ascend
/// and are of one kind each, they are the segment's units as each site makes them.
#[tactic(auto, using(crate::proofs::UnitLaws::slices_are))]
pub fn units_are_those_of_the_directories()
    ensures { (d : Dirs) → AreDirs d → slices d.a d.b ≡ map (unit_due d) (unit_values d) }
{}
