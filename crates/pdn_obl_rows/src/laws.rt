//! What the gates of the operators come to, whatever builder makes them.
ghost use Rattle.pdn_obl_rows.specs.Means.{EncodedMeans, FilterMeans, JoinMeans, AppendMeans, ProjectKeeps, FilterKeeps, JoinKeeps, AppendKeeps};

/// Over words that satisfy an operator's gates, the valid rows of its result are the operator's rows over the valid rows of its
/// input, in order. Gates that have the words of encoded rows are a list of these rows.
pub fn operators_mean()
    ensures encoded { EncodedMeans }
    ensures filter { FilterMeans }
    ensures join { JoinMeans }
    ensures append { AppendMeans }
{}

/// Where the valid rows of an operator's input hold values of their kinds, those of its result do.
pub fn operators_keep_kinds()
    ensures project { ProjectKeeps }
    ensures filter { FilterKeeps }
    ensures join { JoinKeeps }
    ensures append { AppendKeeps }
{}
