//! What the circuits of units mean.
ghost use Rattle.pdn_site.specs.DirectoryMeaning.{DirectoriesMean, TopsMean, QueryMeans};
ghost use Rattle.pdn_site.specs.Meaning.{LeafMeans, UnitMeans, OutputMeans};
ghost use Rattle.pdn_site.specs.NetMeaning.{NetMeans, AnswerMeans, PartsMean};
ghost use Rattle.pdn_site.specs.RootMeaning.{RootMeans};
ghost use Rattle.pdn_site.specs.RootWords.{SlicesMean};
ghost use Rattle.pdn_site.specs.Taking.{CircuitsTake};

/// Over words that satisfy the gates: the valid rows of a leaf, into which each site enters its rows, are both sites' rows. Those
/// of a secure unit are what its segment means over the union where each leaf is cut at the unit's value, in a list of the unit's
/// public length. A unit's output words, read as a list, hold the rows that the unit's list held. And the valid rows of the root,
/// to which the secure units' output words are given, are what the plan means over the union. All rows are meant as a bag.
pub fn units_mean()
    ensures leaf { LeafMeans }
    ensures unit { UnitMeans }
    ensures output { OutputMeans }
    ensures root { RootMeans }
{}

/// The units that the directories of both sites make, each with what it means, together are their segment; the tops that the root
/// takes are those of the plan's segments, in order; and so the units and the root of a query, each over the words that the sites
/// put into it, come to what the plan means over the union of both sites' tables, as a bag. The units that are compiled are these,
/// and, taken segment by segment, they are those by which the root is meant. The circuit of a secure unit and that of the root
/// take just as many words as are put into them. Circuits that are run in plain satisfy what was laid: the outputs of the root's
/// circuit, over the sites' words and the outputs of the secure units' circuits, read as a list of the root's public length, hold
/// what the plan means.
pub fn queries_mean()
    ensures directories { DirectoriesMean }
    ensures tops { TopsMean }
    ensures query { QueryMeans }
    ensures parts { PartsMean }
    ensures slices { SlicesMean }
    ensures takes { CircuitsTake }
    ensures net { NetMeans }
    ensures answer { AnswerMeans }
{}
