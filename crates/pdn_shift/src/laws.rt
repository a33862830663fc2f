//! Laws of the definitions alone.
ghost use Rattle.pdn_shift.specs.Changes.{BackLaw, BackWordsLaw};
ghost use Rattle.pdn_shift.specs.Worlds.{UnitLaw};
ghost use Rattle.pdn_shift.specs.SmallShift.{SmallShift};

/// What a site sees of a unit, its shares of the outputs and what it puts out are the same in two
/// worlds that give it the same words and the same shares: in the first on a section, and in the
/// second on its change.
pub fn worlds_look_alike()
    ensures { UnitLaw }
{}

/// The change is one to one: made the other way it gives the section back. A changed section has
/// the circuit's lengths.
pub fn change_is_undone()
    ensures sections { BackLaw }
    ensures words { BackWordsLaw }
{}

/// The definitions give the change of one And gate's section, and what each site then sees, as
/// worked out by hand.
pub fn small_shift_comes_out()
    ensures { SmallShift }
{}
