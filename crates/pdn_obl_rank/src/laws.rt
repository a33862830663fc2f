//! What the gates of number and top come to, whatever builder makes them.
ghost use Rattle.pdn_obl_rank.specs.Means.{NumberMeans, NumberHolds, TopMeans, TopHolds};
ghost use Rattle.pdn_obl_rank.specs.Worked.{WorkedCounts, WorkedRuns};

/// Over words that satisfy the gates of `number`, the valid rows of its result are those of its list, each with its place. Over
/// words that satisfy the gates of `top`, they are the rows that the limit keeps, where they stood, and every lane of a row that
/// is not valid is zero.
pub fn ranks_mean()
    ensures number { NumberMeans }
    ensures number_holds { NumberHolds }
    ensures top { TopMeans }
    ensures top_holds { TopHolds }
{}

/// Circuits worked out by hand: how many And gates they have, and which rows they show.
pub fn ranks_worked()
    ensures counts { WorkedCounts }
    ensures runs { WorkedRuns }
{}
