//! What comes of a case.
ghost use Rattle.std.specs.Prelude.{◌≤◌, length, All};

use crate::case::{Case, CaseErr, NamedFile, content};
use crate::objects::{Objects, dealer_of_ones, import, objects_of};
use pdn_base::Sink;
use pdn_broker::Watch;
use pdn_commands::pdn;
use pdn_dealer::Deal;
use pdn_startup::{ImportErr, dealer_of};
use std::alloc::Global;
use std::thread::Threads;

/// The statuses of the commands, and all that the sink took.
#[derive(Drop)]
pub struct Outcome {
    pub statuses: Vec<u64>,
    bytes: Vec<u8>,
}

impl Outcome {
    /// Whether this is what the case wants.
    pub fn is_wanted_by(&self, case: &Case) -> bool {
        self.statuses.as_slice() == case.statuses.as_slice()
            && self.bytes.as_slice() == case.text.as_slice()
    }

    /// The text that came.
    pub fn text(&self) -> &str {
        std::str::from_utf8(&self.bytes).unwrap_or("(no text)")
    }
}

/// What comes of a case with these files: those that the commands may read, and those of which the sites' rows are.
pub fn outcome_of<R: Threads + Sync>(
    rt: &R,
    alloc: Global,
    case: &Case,
    files: Vec<NamedFile>,
    kept: Vec<NamedFile>,
) -> Result<Outcome, CaseErr>
    requires files { All (λ f. length f.1.items ≤ 536870912) files.items }
    requires kept { All (λ f. length f.1.items ≤ 536870912) kept.items }
{
    let keyed = content(&files, "tape.key").is_some();
    let dealer = dealer_of(content(&files, "tape.key").unwrap_or(b""));
    let mut objects = objects_of(alloc, &case.fails, files)?;
    if keyed && dealer.is_none() {
        return fault(alloc, objects, "tape.key");
    }
    match import(alloc, &mut objects, kept) {
        Ok(()) => {}
        Err(ImportErr::File(name)) => return fault(alloc, objects, name.as_str()),
        Err(ImportErr::Memory) => return Err(CaseErr::Memory),
    }
    match dealer {
        Some(deal) => run_all(rt, alloc, case, objects, &deal),
        None => run_all(
            rt,
            alloc,
            case,
            objects,
            &dealer_of_ones(alloc, &case.ones)?,
        ),
    }
}

// What the program puts where it can't begin because of this file.
fn fault(alloc: Global, mut objects: Objects, name: &str) -> Result<Outcome, CaseErr> {
    let line = format!(in alloc; "fault 1 {name}\n")?;
    let _put = objects.out.put(line.as_bytes());
    let mut statuses = Vec::new(alloc);
    statuses.push(1)?;
    came_of(alloc, statuses, &objects)
}

// The commands of a case, one after the other.
fn run_all<R: Threads + Sync, D: Deal + Watch>(
    rt: &R,
    alloc: Global,
    case: &Case,
    mut objects: Objects,
    deal: &D,
) -> Result<Outcome, CaseErr> {
    let mut statuses = Vec::new(alloc);
    for words in &case.commands {
        let status = pdn(rt, alloc, words, &mut objects, deal);
        statuses.push(u64::from(status.code()))?;
    }
    came_of(alloc, statuses, &objects)
}

fn came_of(alloc: Global, statuses: Vec<u64>, objects: &Objects) -> Result<Outcome, CaseErr> {
    Ok(Outcome {
        statuses,
        bytes: Vec::from_slice(alloc, objects.out.bytes())?,
    })
}
