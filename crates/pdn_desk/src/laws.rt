//! What the rows of the desk come to.
ghost use Rattle.pdn_desk.specs.Laws.{CallersApart, Repeats};

/// A call that is kept and is made again with its text is replied what is kept: no ticket is taken, and nothing changes. Only where
/// memory runs out, or the desk's keeper fails, is it replied that.
#[tactic(auto, using(crate::proofs::Repeating::repeats))]
pub fn repeats_are_kept()
    ensures { Repeats }
{}

/// A caller's reply is one of the request, of the sites' rows, of the next ticket and of that caller's own kept calls: what is kept of
/// other callers' calls is of no matter to it.
pub fn callers_are_apart()
    ensures { CallersApart }
{}
