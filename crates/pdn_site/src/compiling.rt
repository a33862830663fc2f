//! The units of a query with their circuits, from what is public alone.
ghost use Rattle.std.specs.Prelude.{◌≡◌, ◌≤◌, [], Ok, length, IfOk, IfErr};
ghost use Rattle.pdn_level.specs.Levels.{segments_of};
ghost use Rattle.pdn_site.specs.Compiling.{compiled, IsTooLarge};
ghost use Rattle.pdn_site.specs.Budget.{MakesBelow, shapes_along};

use crate::budget::Left;
use crate::root_lengths::Parts;
use crate::segments::node_at;
use crate::shaping::{SegmentTree, parts_of, root_unit, segment_units};
use crate::{CompileErr, PublicView, Unit, Units};
use pdn_circuit::MOST_GATES;
use pdn_level::Staged;
use pdn_schema::Schema;
use pdn_tree::{Node, Plan};
use std::alloc::Global;
use std::marker::Model;

/// The most And gates of all units.
const MOST_ANDS: u32 = 4_194_304;

/// The units of segments, the parts of each of them, and what they leave.
#[derive(Debug, Drop)]
struct Below {
    units: Vec<Unit>,
    parts: Vec<Parts>,
    left: Left,
}

impl Model for Below {
    ghost use Rattle.pdn_site.specs.Budget.{Below as BelowModel};

    ghost Value = { BelowModel };

    ghost view = { λ b. record { units = b.units.items; parts = b.parts.items; left = b.left } };
}

/// The units of all segments.
fn below_root(
    alloc: Global,
    schema: &Schema,
    root: &Node,
    staged: &Staged,
    view: &PublicView,
    left: Left,
) -> Result<Below, CompileErr>
    requires dirs { length view.now ≡ length staged.now }
    requires room { left.gates ≤ 16777216 }
    ensures { MakesBelow left (shapes_along schema.now root.now 0 staged.now view.now) result }
{
    let mut units = Vec::new(alloc);
    let mut parts = Vec::new(alloc);
    let mut left = left;
    for i in 0..staged.segments.len() {
        let Ok(number) = u32::try_from(i) else {
            // the count of segments passes its type
            return Err(CompileErr::Memory);
        };
        let segment = &staged.segments[i];
        let top = node_at(root, segment.path.as_slice());
        let leaves = segment.leaves.as_slice();
        let tree = SegmentTree {
            schema,
            top,
            leaves,
            number,
        };
        let batch = segment_units(alloc, &tree, &view.dirs[i], left)?;
        parts.push(parts_of(alloc, batch.units.as_slice())?)?;
        let mut more = batch.units;
        units.append(&mut more)?;
        left = batch.left;
    }
    Ok(Below { units, parts, left })
}

/// The units of a query with their circuits: of each segment in order a unit for each value that either directory has, ascending,
/// plain where one directory alone has it and secure where both do, and at last the root.
///
/// The first unit that passes a limit is refused, with the limit: 1 where one of its lists has more than 4096 rows, which is looked
/// at before a gate is made; else 2 or 3 by its first gate past what the earlier units left of 4194304 And gates and of 16777216
/// gates.
pub fn compile(
    alloc: Global,
    schema: &Schema,
    plan: &Plan,
    staged: &Staged,
    view: &PublicView,
) -> Result<Units, CompileErr>
    requires staged { staged.now ≡ segments_of schema.now plan.now.root [] }
    requires dirs { length view.now ≡ length staged.now }
    ensures units { IfOk result (λ units. compiled schema.now plan.now.root staged.now view.now
        ≡ Ok units) }
    ensures large { IfErr result (IsTooLarge schema.now plan.now.root staged.now view.now) }
{
    let left = Left {
        unit: 0,
        ands: MOST_ANDS,
        gates: MOST_GATES,
    };
    let below = below_root(alloc, schema, &plan.root, staged, view, left)?;
    let step = root_unit(
        alloc,
        schema,
        below.parts.as_slice(),
        &plan.root,
        &below.left,
    )?;
    let mut units = below.units;
    units.push(step.unit)?;
    Ok(Units { units })
}
