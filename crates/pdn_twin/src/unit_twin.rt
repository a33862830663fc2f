//! A unit's run in two worlds.
ghost use Rattle.std.specs.Prelude.{◌≡◌, ◌==◌, not, cond, [], ◌∷◌, ◌++◌, length, IfOk, OnOk};
ghost use Rattle.pdn_dealer.specs.Sections.{section_length};
ghost use Rattle.pdn_broker.specs.Runs.{Takes};
ghost use Rattle.pdn_twin.specs.Twins.{differing};
ghost use Rattle.pdn_twin.specs.UnitTwins.{changed_section, start_on, twin_on};

use crate::starts::{Start, Starts, plain};
use crate::twins::Change;
use pdn_base::{Memory, Site, Word};
use pdn_broker::run_dealt;
use pdn_circuit::Circuit;
use pdn_dealer::{Deal, ListDeal, Section};
use pdn_gmw::UnitRun;
use pdn_shift::shift;
use std::alloc::Global;

/// A unit's run in the first world and in the second, and where its section changes.
#[derive(Drop)]
pub(crate) struct UnitTwin {
    pub first: UnitRun,
    pub second: UnitRun,
    pub change: Change,
}

/// Runs a circuit in both worlds: in the first on the section, in the second on its change.
pub(crate) fn twin_on(
    alloc: Global,
    site: Site,
    circuit: &Circuit,
    unit: u64,
    starts: Starts,
    section: Section,
) -> Result<UnitTwin, Memory>
    requires first { Takes circuit.now starts.first.own starts.first.given }
    requires second { Takes circuit.now starts.second.own starts.second.given }
    requires section { length section ≡ section_length circuit.now }
    ensures { IfOk result (λ twin. twin ≡ twin_on site circuit.now unit starts section) }
{
    let changed = changed_section(alloc, site, circuit, &starts, section.words())?;
    let places = differing(alloc, section.words(), changed.as_slice())?;
    let change = Change { unit, places };
    let Starts { first, second } = starts;
    let first = start_on(alloc, circuit, first, section)?;
    let section = section_of(alloc, changed)?;
    let second = start_on(alloc, circuit, second, section)?;
    Ok(UnitTwin {
        first,
        second,
        change,
    })
}

/// The section's words after the change from the first world to the second.
fn changed_section(
    alloc: Global,
    site: Site,
    circuit: &Circuit,
    starts: &Starts,
    words: &[Word],
) -> Result<Vec<Word>, Memory>
    requires first { Takes circuit.now starts.now.first.own starts.now.first.given }
    requires second { Takes circuit.now starts.now.second.own starts.now.second.given }
    requires words { length words.now ≡ section_length circuit.now }
    ensures words { IfOk result (λ new.
        new.items ≡ changed_section site circuit.now starts.now words.now) }
    ensures long { IfOk result (λ new. length new.items ≡ section_length circuit.now) }
{
    let first = plain(alloc, &starts.first.own, &starts.first.given)?;
    let second = plain(alloc, &starts.second.own, &starts.second.given)?;
    shift(alloc, site, circuit, &first, &second, words)
}

/// The run of a circuit in one world, on a section with as many words as it needs.
fn start_on(
    alloc: Global,
    circuit: &Circuit,
    start: Start,
    section: Section,
) -> Result<UnitRun, Memory>
    requires takes { Takes circuit.now start.own start.given }
    requires section { length section ≡ section_length circuit.now }
    ensures { IfOk result (λ run. run ≡ start_on circuit.now start section) }
{
    let Start { own, given } = start;
    run_dealt(alloc, circuit, own, given, section)
}

/// The section with just these words.
fn section_of(alloc: Global, words: Vec<Word>) -> Result<Section, Memory>
    ensures { IfOk result (λ section. section ≡ words.items) }
{
    let len = words.len() as u64;
    let mut entries = Vec::new(alloc);
    entries.push((0, 0, words))?;
    let deal = ListDeal::new(entries);
    deal.section(alloc, 0, 0, len)
}

/// The places at which two lists differ.
fn differing(alloc: Global, old: &[Word], new: &[Word]) -> Result<Vec<u64>, Memory>
    requires { length new.now ≡ length old.now }
    ensures { IfOk result (λ places. places.items ≡ differing old.now new.now) }
{
    let mut places = Vec::new(alloc);
    for k in 0..old.len() {
        push_where(&mut places, k as u64, &old[k], &new[k])?;
    }
    Ok(places)
}

// Adds a place where two words differ.
fn push_where(places: &mut Vec<u64>, place: u64, old: &Word, new: &Word) -> Result<(), Memory>
    ensures { OnOk result (places.new.items
        ≡ places.old.items ++ cond (not (old.now == new.now)) (place ∷ []) []) }
{
    if old.to_u64() != new.to_u64() {
        places.push(place)?;
    }
    Ok(())
}
