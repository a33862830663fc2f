//! What a site's engine tells of its rows, and enters into units.
ghost use Rattle.std.specs.Prelude.{◌≡◌, ◌<◌, ◌-◌, ◌^◌, length, get_or, IfOk};
ghost use Rattle.std.specs.List.{All};
ghost use Rattle.pdn_base.specs.Operators.{Rows as RowsModel};
ghost use Rattle.pdn_site.specs.Engines.{no_unit, segment_number};
ghost use Rattle.pdn_site.specs.declared.unit.UnitKind.TheVariants as kind;

use crate::plans::{plan_of, schema_of};
use pdn_base::{Memory, Row, Rows, RowsErr, Site, Tables, Value, Word};
use pdn_level::levels;
use pdn_site::{SiteEngine, SiteErr, Unit, UnitKind, Units};
use std::alloc::Global;
use std::test::Fail;

const SCHEMA: &str =
    "version 1\nfloor 3\ntable visit rows 8\ncolumn pid int public per 4\ncolumn day int public per 4\nend\n";

/// The visits before day 9, each once: a segment of one table, sliced by its patients.
const EARLY: &str = "SELECT DISTINCT pid, day FROM visit WHERE day < 9;";

/// One table, of rows of numbers.
fn tables_of(alloc: Global, table: &[&[u32]]) -> Result<Tables, Memory>
    ensures { IfOk result (λ tables. All (λ (rows : RowsModel). length rows < 2 ^ 32 - 1) tables) }
{
    let mut rows = Vec::new(alloc);
    for numbers in table {
        let mut values = Vec::new(alloc);
        for number in *numbers {
            values.push(Value::Int(*number))?;
        }
        rows.push(Row::new(values))?;
    }
    if 100 < rows.len() {
        return Err(Memory);
    }
    let mut lists = Vec::new(alloc);
    lists.push(Rows { rows })?;
    Ok(Tables { lists })
}

/// The engine of site A over one table, with the plan's one segment.
fn engine_of(alloc: Global, table: &[&[u32]]) -> Result<SiteEngine, SiteErr>
    ensures { IfOk result (λ engine. length engine.staged ≡ 1) }
{
    let schema = schema_of(alloc, SCHEMA)?;
    let plan = plan_of(alloc, &schema, EARLY)?;
    let staged = levels(alloc, &schema, &plan)?;
    let tables = tables_of(alloc, table)?;
    if tables.lists.len() != schema.tables.len() || staged.segments.len() != 1 {
        return Err(SiteErr::Memory);
    }
    SiteEngine::new(alloc, Site::A, &schema, &plan, &staged, tables)
}

#[test]
fn the_first_table_that_is_not_valid_is_refused(rt: HostRuntime) -> Result<(), Fail> {
    let alloc = rt.alloc();
    let five = engine_of(alloc, &[&[7, 1], &[7, 2], &[7, 3], &[7, 4], &[7, 5]]);
    assert!(rt;
        matches!(
            &five,
            Err(SiteErr::Rows {
                table: 0,
                cause: RowsErr::PerValue(0)
            })
        )
    );
    Ok(())
}

#[test]
fn a_directory_holds_values_that_the_query_drops(rt: HostRuntime) -> Result<(), Fail> {
    let alloc = rt.alloc();
    let engine = engine_of(alloc, &[&[7, 3], &[5, 12], &[7, 1]]).map_err(|_| Memory)?;
    let values = engine.directory(alloc, 0)?;
    assert!(rt; values.as_slice() == [Value::Int(5), Value::Int(7)].as_slice());
    Ok(())
}

/// One secure unit of the segment, of patient 7.
fn unit_of_seven(alloc: Global) -> Result<Units, Memory>
    ensures count { IfOk result (λ units. length units ≡ 1) }
    ensures segment { IfOk result (λ units. segment_number (get_or units 0 no_unit) ≡ 0) }
{
    let mut units = Vec::new(alloc);
    units.push(Unit {
        kind: UnitKind::Secure,
        segment: Some(0),
        value: Some(Value::Int(7)),
        len: 8,
        circuit: None,
    })?;
    Ok(Units { units })
}

/// A unit that a site alone works out, of patient 7, and the root.
fn plain_and_root(alloc: Global) -> Result<Units, Memory>
    ensures count { IfOk result (λ units. length units ≡ 2) }
    ensures root { IfOk result (λ units. (get_or units 1 no_unit).kind ≡ kind.Root) }
{
    let mut units = Vec::new(alloc);
    units.push(Unit {
        kind: UnitKind::Plain(Site::A),
        segment: Some(0),
        value: Some(Value::Int(7)),
        len: 4,
        circuit: None,
    })?;
    units.push(Unit {
        kind: UnitKind::Root,
        segment: None,
        value: None,
        len: 4,
        circuit: None,
    })?;
    Ok(Units { units })
}

/// The words of two visits of patient 7, on the days 1 and 3, by their places; the others are 0.
const TWO_VISITS: [(usize, u64); 6] = [(0, 3), (1, 3), (2, 3), (3, 3), (33, 3), (34, 2)];

/// Whether words are 65, and those of two visits.
fn are_two_visits(words: &[Word]) -> bool {
    let mut same = words.len() == 65;
    for (place, word) in words.iter().enumerate() {
        let wanted = TWO_VISITS
            .iter()
            .find(|(at, _)| *at == place)
            .map_or(0, |(_, lanes)| *lanes);
        same = same && word.to_u64() == wanted;
    }
    same
}

#[test]
fn a_site_enters_its_own_rows_of_the_value_in_order(rt: HostRuntime) -> Result<(), Fail> {
    let alloc = rt.alloc();
    let engine = engine_of(alloc, &[&[7, 3], &[5, 2], &[7, 12], &[7, 1]]).map_err(|_| Memory)?;
    let units = unit_of_seven(alloc)?;
    let rows = engine.plain_slice(alloc, &units, 0)?;
    assert!(rt; rows.rows.len() == 2);
    let words = engine.secure_inputs(alloc, &units, 0)?;
    assert!(rt; are_two_visits(&words));
    Ok(())
}

#[test]
fn the_rows_of_a_plain_unit_go_into_the_root(rt: HostRuntime) -> Result<(), Fail> {
    let alloc = rt.alloc();
    let engine = engine_of(alloc, &[&[7, 3], &[5, 2], &[7, 12], &[7, 1]]).map_err(|_| Memory)?;
    let units = plain_and_root(alloc)?;
    let words = engine.unit_inputs(alloc, &units, 1)?;
    assert!(rt; are_two_visits(&words));
    Ok(())
}
