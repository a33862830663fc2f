//! What the blocks come to, for all circuits and all input words.
ghost use Rattle.std.specs.Prelude.{ℕ, List};
ghost use Rattle.pdn_circuit.specs.Meaning.{OrMeans, LessMeans, EqualMeans, PlusMeans, BlocksYield};

/// The meaning of `or`, `less`, `equal` and `plus` in every lane, wherever their gates stand in a circuit.
pub fn block_laws()
    ensures or_means { OrMeans }
    ensures less_means { LessMeans }
    ensures equal_means { EqualMeans }
    ensures plus_means { PlusMeans }
{}

/// The gates of a block that stand in a circuit give what the block gives.
pub fn blocks_stand()
    ensures number { BlocksYield ℕ }
    ensures numbers { BlocksYield (List ℕ) }
{}
