//! What any calls of one keeper come to.
ghost use Rattle.pdn_desk_keeper.specs.Runs.{TicketsRise, RunsRise};

/// Over any calls of one keeper that tells what it holds, failed ones and those of other kinds
/// among them: the tickets below 2^40 that they give strictly rise. None is given twice, and so no
/// section of a tape is dealt twice. A ticket is at least the next one before the calls and less
/// than the next one after them, which never falls. The same holds of the tickets of any number of
/// runs, one after another.
pub fn tickets_rise()
    ensures rise { TicketsRise }
    ensures runs { RunsRise }
{}
