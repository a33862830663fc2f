//! What each party sees of a query, from its runs.
ghost use Rattle.std.specs.Prelude.{◌≡◌, ◌<◌, true, length, map, get_or, IfOk};
ghost use Rattle.std.specs.List.{range_with_len};
ghost use Rattle.pdn_gmw.specs.Pairs.{Run};
ghost use Rattle.pdn_site.specs.Engines.{value_of};
ghost use Rattle.pdn_view.specs.Views.{part_of};
ghost use Rattle.pdn_broker.specs.Runs.{Tape};
ghost use Rattle.pdn_broker.specs.Units.{is_dealt};
ghost use Rattle.pdn_broker.specs.Running.{root_run, runs_of, AreRuns};
ghost use Rattle.pdn_broker.specs.Views.{
  half_of,
  party_of,
  site_view,
  broker_view,
  part_on,
  run_place,
  part_from,
};

use crate::prepared::Prepared;
use crate::units::{is_dealt, unit_at};
use pdn_base::{Memory, Site, Value};
use pdn_gmw::{Finished, UnitRun, UnitView};
use pdn_site::{Unit, UnitKind, Units};
use pdn_view::{Party, UnitPart, View};
use std::alloc::Global;

fn party_of(site: Site) -> Party
    ensures { result ≡ party_of site }
{
    match site {
        Site::A => Party::A,
        Site::B => Party::B,
    }
}

/// A site's half of a run.
fn half_of(site: Site, run: &UnitRun) -> &Finished
    ensures { result.now ≡ half_of site run.now }
{
    match site {
        Site::A => run.a(),
        Site::B => run.b(),
    }
}

fn copied(alloc: Global, words: &UnitView) -> Result<UnitView, Memory>
    ensures { IfOk result (λ copied. copied ≡ words.now) }
{
    Ok(UnitView {
        own: Vec::from_slice(alloc, words.own.as_slice())?,
        other: Vec::from_slice(alloc, words.other.as_slice())?,
        gates: Vec::from_slice(alloc, words.gates.as_slice())?,
        masks: Vec::from_slice(alloc, words.masks.as_slice())?,
    })
}

fn value_of(unit: &Unit) -> Value
    ensures { result ≡ value_of unit.now }
{
    unit.value.unwrap_or(Value::Int(0))
}

/// What a site sees of a unit, whose run is the one at this place, if it has one.
fn part_on(
    alloc: Global,
    site: Site,
    unit: &Unit,
    runs: &[UnitRun],
    place: usize,
) -> Result<UnitPart, Memory>
    requires { is_dealt unit.now.kind ≡ true → place < length runs.now }
    ensures { IfOk result (λ part. (other : Run)
        → part_of part ≡ part_on site unit.now (get_or runs.now place other) unit.now.kind) }
{
    match unit.kind {
        UnitKind::Plain(at) => Ok(UnitPart::Plain(at, value_of(unit))),
        UnitKind::Secure => {
            let words = copied(alloc, half_of(site, &runs[place]).view())?;
            Ok(UnitPart::Secure(value_of(unit), words))
        }
        UnitKind::Root => {
            let words = copied(alloc, half_of(site, &runs[place]).view())?;
            Ok(UnitPart::Root(words))
        }
    }
}

/// What a site sees of each unit, by the runs of those that are dealt.
fn parts_on(
    alloc: Global,
    site: Site,
    units: &Units,
    runs: &[UnitRun],
) -> Result<Vec<UnitPart>, Memory>
    requires { length runs.now ≡ run_place units.now (length units.now) }
    ensures { IfOk result (λ parts. (other : Run) → map part_of parts.items
        ≡ map (part_from site units.now runs.now other) (range_with_len 0 (length units.now))) }
{
    let mut parts = Vec::new(alloc);
    let mut place = 0;
    for k in 0..units.units.len() {
        let unit = unit_at(units, k as u64);
        parts.push(part_on(alloc, site, unit, runs, place)?)?;
        place += usize::from(is_dealt(unit));
    }
    Ok(parts)
}

/// What a site sees of a prepared query, from the runs of its units, on whatever tape they ran: the ticket, both sites' directories,
/// and of each unit in order its side of the run, where the unit is run at all. The words are copied.
///
/// Memory is the only error.
pub fn site_view(
    alloc: Global,
    prepared: &Prepared,
    site: Site,
    ticket: u64,
    runs: &[UnitRun],
) -> Result<View, Memory>
    requires { AreRuns prepared.now ticket runs.now }
    ensures { IfOk result (λ view. (tape : Tape) → runs.now ≡ runs_of prepared.now tape ticket
        → view ≡ site_view site prepared.now tape ticket) }
{
    let units = parts_on(alloc, site, &prepared.units, runs)?;
    let dirs = prepared.view.copy(alloc)?;
    Ok(View {
        party: party_of(site),
        ticket,
        dirs: dirs.dirs,
        units,
    })
}

/// What the broker sees of a prepared query, from the root's run, on whatever tape it ran: the ticket, both sites' directories, and
/// the root's outputs as both sites put them out. The words are copied.
///
/// Memory is the only error.
pub fn broker_view(
    alloc: Global,
    prepared: &Prepared,
    ticket: u64,
    root: &UnitRun,
) -> Result<View, Memory>
    ensures { IfOk result (λ view. (tape : Tape) → root.now ≡ root_run prepared.now tape ticket
        → view ≡ broker_view prepared.now tape ticket) }
{
    let a = Vec::from_slice(alloc, root.a().outputs())?;
    let b = Vec::from_slice(alloc, root.b().outputs())?;
    let dirs = prepared.view.copy(alloc)?;
    Ok(View {
        party: Party::Broker,
        ticket,
        dirs: dirs.dirs,
        units: vec![in alloc; UnitPart::RootOut(a, b)]?,
    })
}
