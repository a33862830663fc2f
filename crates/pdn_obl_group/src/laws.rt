//! What the gates of the operators come to, whatever builder makes them.
ghost use Rattle.pdn_obl_group.specs.Means.{DistinctMeans, GroupMeans, CountMeans, CutDistinctMeans, CutGroupMeans, DistinctKeeps, GroupKeeps, CountKeeps, CutDistinctKeeps, CutGroupKeeps};

/// Over words that satisfy an operator's gates, the valid rows of its result are the operator's rows over the valid rows of its
/// input, in order.
pub fn groups_mean()
    ensures distinct { DistinctMeans }
    ensures group { GroupMeans }
    ensures count { CountMeans }
    ensures cut_distinct { CutDistinctMeans }
    ensures cut_group { CutGroupMeans }
{}

/// Where the valid rows of an operator's input hold values of their kinds, those of its result do.
pub fn groups_keep_kinds()
    ensures distinct { DistinctKeeps }
    ensures group { GroupKeeps }
    ensures count { CountKeeps }
    ensures cut_distinct { CutDistinctKeeps }
    ensures cut_group { CutGroupKeeps }
{}
