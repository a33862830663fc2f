//! Which network is stated.
ghost use Rattle.std.specs.Prelude.{◌≤◌};

/// Which network is stated: its seed, and how many patients it has, at most 100.
#[derive(Clone, Copy, Debug)]
pub struct Size {
    pub seed: u32,
    pub patients: u64,
    ghost few: { patients ≤ 100 },
}
