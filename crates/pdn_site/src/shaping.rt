//! Units, each with its circuit and what it leaves of the limits.
ghost use Rattle.std.specs.Prelude.{◌≡◌, ◌≤◌, map, IfOk};
ghost use Rattle.pdn_level.specs.Cutting.{same_value};
ghost use Rattle.pdn_site.specs.declared.unit.UnitKind.TheVariants.{Plain, Secure};
ghost use Rattle.pdn_site.specs.Directories.{stands_in, unit_values, kind_of};
ghost use Rattle.pdn_site.specs.Compiling.{root_shape, gates_of};
ghost use Rattle.pdn_site.specs.Budget.{MakesUnit, MakesUnits, shape_along, segment_along, spent, passed_by, unit_part};

use crate::budget::{Left, root_circuit, secure_circuit, spent};
use crate::directories::ascending;
use crate::lengths::sized;
use crate::root_lengths::{Part, Parts, root_sizes};
use crate::{CompileErr, SegDirs, Unit, UnitKind};
use pdn_base::{Memory, Site, Value};
use pdn_circuit::{BuildErr, Gate};
use pdn_level::Leaf;
use pdn_schema::Schema;
use pdn_tree::Node;
use std::alloc::Global;
use std::marker::Model;

/// A unit, and what it leaves.
#[derive(Debug, Drop)]
pub struct Step {
    pub unit: Unit,
    pub left: Left,
}

impl Model for Step {
    ghost use Rattle.pdn_site.specs.Budget.{Step as StepModel};

    ghost Value = { StepModel };

    ghost view = { λ s. record { unit = s.unit; left = s.left } };
}

/// Units in order, and what they leave.
#[derive(Debug, Drop)]
pub struct Batch {
    pub units: Vec<Unit>,
    pub left: Left,
}

impl Model for Batch {
    ghost use Rattle.pdn_site.specs.Budget.{Batch as BatchModel};

    ghost Value = { BatchModel };

    ghost view = { λ b. record { units = b.units.items; left = b.left } };
}

/// A segment: its number, its tree, and the columns of its tree's tables to which its values are traced, left to right.
#[derive(Drop)]
pub struct SegmentTree<'a> {
    pub schema: &'a Schema,
    pub top: &'a Node,
    pub leaves: &'a [Leaf],
    pub number: u32,
}

/// Whether a directory has a value.
fn stands_in(values: &[Value], value: &Value) -> bool
    ensures { result ≡ stands_in values.now value.now }
{
    values.iter().any(
        |other: &Value| -> bool
            ensures { result ≡ same_value value.entry.now other.now }
        { *value == *other },
    )
}

/// The values of a segment's units.
fn unit_values(alloc: Global, dirs: &SegDirs) -> Result<Vec<Value>, Memory>
    ensures { IfOk result (λ values. values.items ≡ unit_values dirs.now) }
{
    let mut all = Vec::from_slice(alloc, dirs.a.as_slice())?;
    let mut more = Vec::from_slice(alloc, dirs.b.as_slice())?;
    all.append(&mut more)?;
    ascending(alloc, all.as_slice())
}

/// The gates of a unit.
fn gates_of(unit: &Unit) -> &[Gate]
    ensures { result.now ≡ gates_of unit.now.circuit }
{
    match &unit.circuit {
        None => &[],
        Some(circuit) => circuit.gates.as_slice(),
    }
}

/// A unit that passes no limit.
fn stepped(unit: Unit, left: &Left) -> Result<Step, Memory>
    ensures { IfOk result (λ step. step ≡ record {
      unit = unit;
      left = spent left.now (gates_of unit.circuit);
    }) }
{
    let left = spent(left, gates_of(&unit))?;
    Ok(Step { unit, left })
}

/// Why a unit whose circuit was refused is refused.
fn passed(err: BuildErr, unit: u64) -> CompileErr
    ensures { result ≡ passed_by unit err }
{
    match err {
        BuildErr::Full { limit } => CompileErr::TooLarge { limit, unit },
        BuildErr::Memory => CompileErr::Memory,
    }
}

/// The plain unit of a value.
#[tactic(auto, using(crate::proofs::CompilingLaws::long_passes, crate::proofs::CompilingLaws::unit_reaches))]
fn plain_unit(
    alloc: Global,
    tree: &SegmentTree<'_>,
    value: &Value,
    site: Site,
    left: &Left,
) -> Result<Step, CompileErr>
    ensures { MakesUnit left.now (shape_along tree.now.schema.now tree.now.top.now
        tree.now.leaves.now tree.now.number value.now (Plain site)) result }
{
    let Some(lists) = sized(alloc, tree.schema, 1, tree.top, tree.leaves)? else {
        return Err(CompileErr::TooLarge {
            limit: 1,
            unit: left.unit,
        });
    };
    let unit = Unit {
        kind: UnitKind::Plain(site),
        segment: Some(tree.number),
        value: Some(*value),
        len: lists.room,
        circuit: None,
    };
    Ok(stepped(unit, left)?)
}

/// The secure unit of a value.
#[tactic(auto, using(crate::proofs::CompilingLaws::long_passes, crate::proofs::CompilingLaws::over_passes, crate::proofs::CompilingLaws::unit_reaches))]
fn secure_unit(
    alloc: Global,
    tree: &SegmentTree<'_>,
    value: &Value,
    left: &Left,
) -> Result<Step, CompileErr>
    requires { left.now.gates ≤ 16777216 }
    ensures { MakesUnit left.now (shape_along tree.now.schema.now tree.now.top.now
        tree.now.leaves.now tree.now.number value.now Secure) result }
{
    let Some(lists) = sized(alloc, tree.schema, 2, tree.top, tree.leaves)? else {
        return Err(CompileErr::TooLarge {
            limit: 1,
            unit: left.unit,
        });
    };
    let circuit = match secure_circuit(alloc, tree.schema, value, tree.top, tree.leaves, left) {
        Ok(circuit) => circuit,
        Err(err) => return Err(passed(err, left.unit)),
    };
    let unit = Unit {
        kind: UnitKind::Secure,
        segment: Some(tree.number),
        value: Some(*value),
        len: lists.room,
        circuit: Some(circuit),
    };
    Ok(stepped(unit, left)?)
}

/// The root.
#[tactic(auto, using(crate::proofs::CompilingLaws::long_passes, crate::proofs::CompilingLaws::over_passes, crate::proofs::CompilingLaws::unit_reaches))]
pub fn root_unit(
    alloc: Global,
    schema: &Schema,
    parts: &[Parts],
    root: &Node,
    left: &Left,
) -> Result<Step, CompileErr>
    requires { left.now.gates ≤ 16777216 }
    ensures { MakesUnit left.now (root_shape schema.now parts.now root.now) result }
{
    let Some(lists) = root_sizes(alloc, schema, parts, root, 0)? else {
        return Err(CompileErr::TooLarge {
            limit: 1,
            unit: left.unit,
        });
    };
    let circuit = match root_circuit(alloc, schema, parts, root, left) {
        Ok(circuit) => circuit,
        Err(err) => return Err(passed(err, left.unit)),
    };
    let unit = Unit {
        kind: UnitKind::Root,
        segment: None,
        value: None,
        len: lists.len,
        circuit: Some(circuit),
    };
    Ok(stepped(unit, left)?)
}

/// The unit of a value: plain where one directory alone has it, and secure where both do.
fn value_unit(
    alloc: Global,
    tree: &SegmentTree<'_>,
    dirs: &SegDirs,
    value: &Value,
    left: &Left,
) -> Result<Step, CompileErr>
    requires { left.now.gates ≤ 16777216 }
    ensures { MakesUnit left.now (shape_along tree.now.schema.now tree.now.top.now
        tree.now.leaves.now tree.now.number value.now (kind_of dirs.now value.now)) result }
{
    if !stands_in(dirs.a.as_slice(), value) {
        plain_unit(alloc, tree, value, Site::B, left)
    } else if stands_in(dirs.b.as_slice(), value) {
        secure_unit(alloc, tree, value, left)
    } else {
        plain_unit(alloc, tree, value, Site::A, left)
    }
}

/// The units of a segment.
pub fn segment_units(
    alloc: Global,
    tree: &SegmentTree<'_>,
    dirs: &SegDirs,
    left: Left,
) -> Result<Batch, CompileErr>
    requires { left.gates ≤ 16777216 }
    ensures { MakesUnits left (segment_along tree.now.schema.now tree.now.top.now
        tree.now.leaves.now tree.now.number dirs.now) result }
{
    let values = unit_values(alloc, dirs)?;
    let mut units = Vec::new(alloc);
    let mut left = left;
    for value in &values {
        let step = value_unit(alloc, tree, dirs, value, &left)?;
        units.push(step.unit)?;
        left = step.left;
    }
    Ok(Batch { units, left })
}

/// Units as the root reads them.
pub fn parts_of(alloc: Global, units: &[Unit]) -> Result<Parts, Memory>
    ensures { IfOk result (λ parts. parts ≡ map unit_part units.now) }
{
    let mut parts = Vec::new(alloc);
    for unit in units {
        parts.push(Part {
            kind: unit.kind,
            len: unit.len,
        })?;
    }
    Ok(Parts { parts })
}
