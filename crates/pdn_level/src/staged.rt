//! Levels, and the segments of a plan.

ghost use Rattle.std.specs.Prelude.{◌≡◌, IfOk};

use pdn_base::Memory;
use std::alloc::Global;
use std::marker::Model;

/// Where a tree is worked out: at each site alone, value by value, or in one piece over both sites' rows.
#[derive(Clone, Copy, Debug, Drop)]
pub enum Level {
    Local,
    Sliced,
    Secure,
}

/// A table that a segment reads, by its place in the schema, and the table's column to which the segment is traced.
#[derive(Clone, Copy, Debug, Drop)]
pub struct Leaf {
    pub table: u32,
    pub column: u32,
}

/// A largest part of a plan that is worked out value by value: the way to its top from the root (0 for the only or the
/// left child, 1 for the right one), and its leaves, left to right.
#[derive(Debug, Drop)]
pub struct Segment {
    pub path: Vec<u8>,
    pub leaves: Vec<Leaf>,
}

impl Model for Segment {
    ghost use Rattle.pdn_level.specs.Models.{SegmentModel};

    ghost Value = { SegmentModel };

    ghost view = { λ s. record { path = s.path.items; leaves = s.leaves.items } };
}

/// The segments of a plan, numbered from 0 in post-order. Contracts see the list of them.
#[derive(Debug, Drop)]
pub struct Staged {
    pub segments: Vec<Segment>,
}

impl Model for Staged {
    ghost use Rattle.std.specs.Prelude.{List};
    ghost use Rattle.pdn_level.specs.Models.{SegmentModel};

    ghost Value = { List SegmentModel };

    ghost view = { λ s. s.segments.items };
}

impl Segment {
    /// An equal segment.
    pub fn copy(&self, alloc: Global) -> Result<Segment, Memory>
        ensures { IfOk result (λ copied. copied ≡ self.now) }
    {
        Ok(Segment {
            path: Vec::from_slice(alloc, self.path.as_slice())?,
            leaves: Vec::from_slice(alloc, self.leaves.as_slice())?,
        })
    }
}

impl Staged {
    /// Equal segments.
    pub fn copy(&self, alloc: Global) -> Result<Staged, Memory>
        ensures { IfOk result (λ copied. copied ≡ self.now) }
    {
        let mut segments = Vec::new(alloc);
        for segment in &self.segments {
            segments.push(segment.copy(alloc)?)?;
        }
        Ok(Staged { segments })
    }
}
