//! Laws of the definitions alone.
ghost use Rattle.pdn_gmw.specs.Halves.{HalvesLaw, RunLaw};
ghost use Rattle.pdn_gmw.specs.Rounds.{RoundLaw, DepthLaw};
ghost use Rattle.pdn_gmw.specs.SmallRun.{SmallRun, OneAnd};

/// Two halves of one section that heard what the other sends hold the shares which the plain values say, and
/// their outputs come to the plain words.
pub fn halves_meet()
    ensures shares { HalvesLaw }
    ensures run { RunLaw }
{}

/// In whatever rounds the words are sent, if each gate stands after what it reads, each half hears the same words
/// for each gate. So it is with a round for each And gate and with a round for each depth.
pub fn rounds_tell_the_same()
    ensures rounds { RoundLaw }
    ensures depths { DepthLaw }
{}

/// The definitions give the words of a small run that was worked out apart from them.
pub fn small_run_comes_out()
    ensures { SmallRun }
{}

/// The same of one And gate, with its frames and what each side sees, and of the depths of two.
pub fn one_and_comes_out()
    ensures { OneAnd }
{}
