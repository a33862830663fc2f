//! The units of queries: their kinds, values and lengths, and the words that their circuits take and give.
ghost use Rattle.std.specs.Prelude.{◌≡◌, ◌≤◌, []};
ghost use Rattle.pdn_level.specs.Levels.{segments_of};

use crate::plans::{plan_of, schema_of};
use pdn_base::{Memory, Site, Value};
use pdn_circuit::{Circuit, Gate, gate_depths};
use pdn_level::{Staged, levels};
use pdn_plan::Plan;
use pdn_schema::Schema;
use pdn_site::{CompileErr, PublicView, SegDirs, Unit, UnitKind, Units, compile};
use std::alloc::Global;
use std::test::Fail;

const SMALL: &str = "version 1\nfloor 3\ntable t rows 8\ncolumn c int private\nend\n";

const HOSPITALS: &str =
    "version 1\nfloor 3\ntable diag rows 16\ncolumn pid int public per 4\ncolumn code code protected\ncolumn day int private\ntable med rows 16\ncolumn pid int public per 4\ncolumn drug code protected\ncolumn day int private\ntable wide rows 256\ncolumn y int public per 64\ncolumn x int private\nend\n";

const RECURRENT: &str =
    "WITH d AS (SELECT pid, day, ROW_NUMBER() OVER (PARTITION BY pid ORDER BY day) AS r FROM diag WHERE code = 'cdiff') SELECT DISTINCT a.pid FROM d a JOIN d b ON a.pid = b.pid AND b.r = a.r + 1 WHERE b.day >= a.day + 15 AND b.day <= a.day + 56 ORDER BY pid;";

// The values of a segment in A's rows and in B's.
type Dirs<'a> = (&'a [u32], &'a [u32]);

// A circuit's words: those that it takes of A, of B and as given, its And gates, and the words that it gives.
type Words = (usize, usize, usize, usize, usize);

fn values_of(alloc: Global, numbers: &[u32]) -> Result<Vec<Value>, Memory> {
    let mut values = Vec::new(alloc);
    for number in numbers {
        values.push(Value::Int(*number))?;
    }
    Ok(values)
}

fn view_of(alloc: Global, segments: &[Dirs<'_>]) -> Result<PublicView, Memory> {
    let mut dirs = Vec::new(alloc);
    for (a, b) in segments {
        dirs.push(SegDirs {
            a: values_of(alloc, a)?,
            b: values_of(alloc, b)?,
        })?;
    }
    Ok(PublicView { dirs })
}

// The units of a plan over directories, where there is a pair for each segment.
fn units_over(
    alloc: Global,
    schema: &Schema,
    plan: &Plan,
    staged: &Staged,
    segments: &[Dirs<'_>],
) -> Result<Units, CompileErr>
    requires { staged.now ≡ segments_of schema.now plan.now.root [] }
{
    let view = view_of(alloc, segments)?;
    if view.dirs.len() != staged.segments.len() {
        return Err(CompileErr::Memory);
    }
    compile(alloc, schema, plan, staged, &view.copy(alloc)?)
}

fn planned_units(
    alloc: Global,
    schema: &Schema,
    plan: &Plan,
    segments: &[Dirs<'_>],
) -> Result<Units, CompileErr> {
    let staged = levels(alloc, schema, plan)?;
    units_over(alloc, schema, plan, &staged, segments)
}

fn bound_units(
    alloc: Global,
    schema: &Schema,
    sql: &str,
    segments: &[Dirs<'_>],
) -> Result<Units, CompileErr> {
    let plan = plan_of(alloc, schema, sql)?;
    planned_units(alloc, schema, &plan, segments)
}

// The units of a query over directories.
fn units_of(
    alloc: Global,
    net: &str,
    sql: &str,
    segments: &[Dirs<'_>],
) -> Result<Units, CompileErr> {
    let schema = schema_of(alloc, net)?;
    bound_units(alloc, &schema, sql, segments)
}

fn words_of(circuit: &Circuit) -> Words {
    let mut words: Words = (0, 0, 0, 0, circuit.outputs.len());
    for gate in &circuit.gates {
        match gate {
            Gate::Input { site: Site::A, .. } => words.0 = words.0.saturating_add(1),
            Gate::Input { site: Site::B, .. } => words.1 = words.1.saturating_add(1),
            Gate::Given { .. } => words.2 = words.2.saturating_add(1),
            Gate::And { .. } => words.3 = words.3.saturating_add(1),
            _ => {}
        }
    }
    words
}

// Whether a unit is the root, with this room and these words, and is released.
fn is_root(unit: &Unit, len: u32, words: Words) -> bool {
    let released = match &unit.circuit {
        Some(circuit) => circuit.released && words_of(circuit) == words,
        None => false,
    };
    matches!(unit.kind, UnitKind::Root)
        && unit.segment.is_none()
        && unit.value.is_none()
        && unit.len == len
        && released
}

// Whether a unit of the first segment is secure, of this value, with this room and these words, and isn't released.
fn is_secure(unit: &Unit, value: u32, len: u32, words: Words) -> bool {
    let sealed = match &unit.circuit {
        Some(circuit) => !circuit.released && words_of(circuit) == words,
        None => false,
    };
    matches!(unit.kind, UnitKind::Secure)
        && unit.segment == Some(0)
        && unit.value == Some(Value::Int(value))
        && unit.len == len
        && sealed
}

// Whether a unit of the first segment is plain of A, else of B, of this value and with this room.
fn is_plain(unit: &Unit, of_a: bool, value: u32, len: u32) -> bool {
    let site = match unit.kind {
        UnitKind::Plain(Site::A) => of_a,
        UnitKind::Plain(Site::B) => !of_a,
        _ => false,
    };
    site && unit.segment == Some(0)
        && unit.value == Some(Value::Int(value))
        && unit.len == len
        && unit.circuit.is_none()
}

// How many frames each half of a unit's run sends: as many as its deepest gate is deep.
fn depth_of(alloc: Global, unit: &Unit) -> Result<u32, Memory> {
    let mut deepest = 0;
    if let Some(circuit) = &unit.circuit {
        for depth in &gate_depths(alloc, circuit)? {
            deepest = deepest.max(*depth);
        }
    }
    Ok(deepest)
}

#[test]
fn one_count_is_one_unit_of_96_and_gates(rt: HostRuntime) -> Result<(), Fail> {
    let sql = "SELECT COUNT(*) FROM t WHERE c = 5;";
    let units = units_of(rt.alloc(), SMALL, sql, &[]).map_err(|_| Memory)?;
    assert_eq!(rt; units.units.len(), 1);
    assert!(rt; is_root(&units.units[0], 1, (1, 1, 0, 96, 33)));
    assert_eq!(rt; depth_of(rt.alloc(), &units.units[0])?, 5);
    Ok(())
}

#[test]
fn a_segment_without_values_has_no_units(rt: HostRuntime) -> Result<(), Fail> {
    let sql = "SELECT pid FROM diag GROUP BY pid;";
    let units = units_of(rt.alloc(), HOSPITALS, sql, &[(&[], &[])]).map_err(|_| Memory)?;
    assert_eq!(rt; units.units.len(), 1);
    assert!(rt; is_root(&units.units[0], 0, (0, 0, 0, 0, 0)));
    Ok(())
}

#[test]
fn a_value_of_one_site_is_a_plain_unit_and_of_both_a_secure_one(
    rt: HostRuntime,
) -> Result<(), Fail> {
    let alloc = rt.alloc();
    let once = "SELECT DISTINCT pid FROM diag;";
    let units = units_of(alloc, HOSPITALS, once, &[(&[1], &[])]).map_err(|_| Memory)?;
    assert_eq!(rt; units.units.len(), 2);
    assert!(rt; is_plain(&units.units[0], true, 1, 1));
    assert!(rt; is_root(&units.units[1], 1, (33, 0, 0, 32, 33)));
    // the left table has the value at one site alone, the right one at the other
    let joined = "SELECT d.pid FROM diag d JOIN med m ON d.pid = m.pid;";
    let units = units_of(alloc, HOSPITALS, joined, &[(&[3], &[3])]).map_err(|_| Memory)?;
    assert_eq!(rt; units.units.len(), 2);
    assert!(rt; is_secure(&units.units[0], 3, 64, (66, 66, 0, 33, 33)));
    assert!(rt; is_root(&units.units[1], 64, (0, 0, 33, 32, 33)));
    Ok(())
}

#[test]
fn patients_of_two_hospitals_make_twelve_units_and_the_root(rt: HostRuntime) -> Result<(), Fail> {
    let a: &[u32] = &[1, 2, 3, 4, 5, 6, 7, 8, 9, 10];
    let b: &[u32] = &[2, 3, 4, 5, 6, 7, 8, 9, 10, 11, 12];
    let units = units_of(rt.alloc(), HOSPITALS, RECURRENT, &[(a, b)]).map_err(|_| Memory)?;
    assert_eq!(rt; units.units.len(), 13);
    for k in 0..9 {
        assert!(rt;
            is_secure(
                &units.units[1 + k],
                2 + k as u32,
                1,
                (130, 130, 0, 1894, 33)
            )
        );
    }
    assert!(rt; is_plain(&units.units[0], true, 1, 1));
    assert!(rt; is_plain(&units.units[10], false, 11, 1));
    assert!(rt; is_plain(&units.units[11], false, 12, 1));
    assert!(rt; matches!(units.units[12].kind, UnitKind::Root));
    Ok(())
}

#[test]
fn a_list_of_too_many_rows_is_limit_1(rt: HostRuntime) -> Result<(), Fail> {
    let alloc = rt.alloc();
    // 512 times 512 rows
    let joined = "SELECT a.y FROM wide a JOIN wide b ON a.x = b.x;";
    let rows = units_of(alloc, HOSPITALS, joined, &[]);
    assert!(rt; matches!(&rows, Err(CompileErr::TooLarge { limit: 1, unit: 0 })));
    Ok(())
}
