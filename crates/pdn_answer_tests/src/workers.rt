//! An answer by 1, 2 and 16 workers.
ghost use Rattle.std.specs.Prelude.{◌≡◌, ◌≤◌, ◌<◌, ◌-◌, ◌^◌, length, IfOk};
ghost use Rattle.std.specs.List.{All};
ghost use Rattle.pdn_base.specs.Operators.{Rows as RowsModel};
ghost use Rattle.pdn_dealer.specs.Tapes.{list_tape};

use crate::plans::{schema_of, sound_plan};
use pdn_base::{Code, Memory, Row, Rows, Tables, Value, Word};
use pdn_broker::{Answered, Dealt, Prepared, Watch, answer, prepare};
use pdn_dealer::{Deal, ListDeal, Section};
use pdn_gmw::UnitRun;
use std::alloc::Global;
use std::sync::atomic::{AtomicU64, Ordering};
use std::test::Fail;
use std::thread::Threads;

const SCHEMA: &str =
    "version 1\nfloor 3\ntable diag rows 16\ncolumn pid int public per 4\ncolumn code code protected\ncolumn day int private\nend\n";

/// Patients with a second infection 15 to 56 days after the one before.
const RECURRENT: &str =
    "WITH d AS (SELECT pid, day, ROW_NUMBER() OVER (PARTITION BY pid ORDER BY day) AS r FROM diag WHERE code = 'cdiff') SELECT DISTINCT a.pid FROM d a JOIN d b ON a.pid = b.pid AND b.r = a.r + 1 WHERE b.day >= a.day + 15 AND b.day <= a.day + 56 ORDER BY pid;";

// Patient, whether it is the infection, and day. The patients 2 to 10 are at both sites.
type Diagnosis = (u32, bool, u32);

const OF_A: [Diagnosis; 12] = [
    (1, true, 10),
    (1, true, 30),
    (2, true, 5),
    (3, true, 100),
    (4, false, 1),
    (5, true, 50),
    (6, true, 60),
    (7, true, 7),
    (8, true, 80),
    (9, true, 9),
    (9, true, 40),
    (10, false, 3),
];

const OF_B: [Diagnosis; 12] = [
    (2, true, 20),
    (3, true, 156),
    (4, true, 30),
    (5, true, 64),
    (6, true, 117),
    (7, true, 27),
    (8, true, 80),
    (9, true, 20),
    (10, true, 50),
    (11, true, 1),
    (11, true, 40),
    (12, true, 5),
];

/// A tape of zeros that counts how often a section is asked for: of each of the first 13 units of ticket 7, and of any other. It
/// keeps the units of ticket 7 of whose runs it is told, in order.
#[derive(Drop)]
struct Counting {
    zeros: ListDeal,
    units: Vec<AtomicU64>,
    others: AtomicU64,
    told: Vec<AtomicU64>,
    tellings: AtomicU64,
}

/// 13 counts.
fn zeros(alloc: Global) -> Result<Vec<AtomicU64>, Memory> {
    let mut counts = Vec::new(alloc);
    for _ in 0..13 {
        counts.push(AtomicU64::new(0))?;
    }
    Ok(counts)
}

impl Counting {
    fn new(alloc: Global) -> Result<Counting, Memory> {
        Ok(Counting {
            zeros: ListDeal::new(Vec::new(alloc)),
            units: zeros(alloc)?,
            others: AtomicU64::new(0),
            told: zeros(alloc)?,
            tellings: AtomicU64::new(0),
        })
    }

    fn count(&self, ticket: u64, unit: u64) -> &AtomicU64 {
        if ticket == 7 && unit < self.units.len() as u64 {
            &self.units[unit as usize]
        } else {
            &self.others
        }
    }

    /// Whether the secure units, 1 to 9, and the root, 12, were asked for once each, and nothing else was.
    fn each_once(&self) -> bool {
        for (unit, count) in self.units.iter().enumerate() {
            let wanted = u64::from(unit == 12 || (1 <= unit && unit <= 9));
            if count.load(Ordering::SeqCst) != wanted {
                return false;
            }
        }
        self.others.load(Ordering::SeqCst) == 0
    }

    /// Whether it was told of a run for each of these sections, in this order, and of no other.
    fn was_told(&self, dealt: &[Dealt]) -> bool {
        let mut same = self.tellings.load(Ordering::SeqCst) == dealt.len() as u64;
        for (at, told) in dealt.iter().zip(self.told.iter()) {
            same = same && at.ticket == 7 && told.load(Ordering::SeqCst) == at.unit;
        }
        same
    }
}

impl Deal for Counting {
    ghost tape = { λ d. list_tape d.zeros };

    fn section(&self, alloc: Global, ticket: u64, unit: u64, len: u64) -> Result<Section, Memory> {
        let _before = self.count(ticket, unit).fetch_add(1, Ordering::SeqCst);
        self.zeros.section(alloc, ticket, unit, len)
    }
}

impl Watch for Counting {
    fn ran(&self, ticket: u64, unit: u64, _run: &UnitRun) {
        let place = self.tellings.fetch_add(1, Ordering::SeqCst) as usize;
        if ticket == 7 && place < self.told.len() {
            self.told[place].store(unit, Ordering::SeqCst);
        }
    }
}

fn tables_of(alloc: Global, diagnoses: &[Diagnosis]) -> Result<Tables, Memory>
    ensures { IfOk result (λ tables. All (λ (rows : RowsModel). length rows < 2 ^ 32 - 1) tables) }
{
    let mut rows = Vec::new(alloc);
    for (pid, infection, day) in diagnoses {
        let text: &[u8] = if *infection { b"cdiff" } else { b"flu" };
        let code = Code::read(text).ok_or(Memory)?;
        let mut values = Vec::new(alloc);
        values.push(Value::Int(*pid))?;
        values.push(Value::Code(code))?;
        values.push(Value::Int(*day))?;
        rows.push(Row::new(values))?;
    }
    if 100 < rows.len() {
        return Err(Memory);
    }
    let mut lists = Vec::new(alloc);
    lists.push(Rows { rows })?;
    Ok(Tables { lists })
}

fn prepared(alloc: Global) -> Result<Prepared, Memory> {
    let schema = schema_of(alloc, SCHEMA)?;
    let plan = sound_plan(alloc, &schema, RECURRENT)?;
    let a = tables_of(alloc, &OF_A)?;
    let b = tables_of(alloc, &OF_B)?;
    if a.lists.len() != schema.tables.len() || b.lists.len() != schema.tables.len() {
        return Err(Memory);
    }
    prepare(alloc, &schema, &plan, a, b).map_err(|_| Memory)
}

fn answered<R: Threads + Sync>(
    rt: &R,
    alloc: Global,
    deal: &Counting,
    workers: u32,
) -> Result<Answered, Memory>
    requires { (1 ≤ workers) × (workers ≤ 16) }
{
    answer(rt, alloc, prepared(alloc)?, 7, deal, workers)
}

// Whether the rows are the patients 1, 2, 3, 7, 9 and 11.
fn are_recurrent(rows: &Rows) -> bool {
    let patients = [1, 2, 3, 7, 9, 11];
    let mut same = rows.rows.len() == patients.len();
    for (row, patient) in rows.rows.iter().zip(patients.iter()) {
        same = same && row.values.as_slice() == [Value::Int(*patient)].as_slice();
    }
    same
}

#[test]
fn workers_ask_once_for_each_section_and_tell_of_its_run_in_order(
    rt: HostRuntime,
) -> Result<(), Fail> {
    for workers in [1, 2, 16] {
        let deal = Counting::new(rt.alloc())?;
        let answered = answered(&rt, rt.alloc(), &deal, workers)?;
        assert!(rt; are_recurrent(&answered.rows), "{workers} workers");
        assert!(rt; deal.each_once(), "{workers} workers");
        assert_eq!(rt; answered.dealt.len(), 10);
        assert_eq!(rt; answered.runs.len(), 10);
        assert!(rt; deal.was_told(&answered.dealt), "{workers} workers");
        assert_eq!(rt; answered.view_a.units.len(), 13);
        assert_eq!(rt; answered.view_b.units.len(), 13);
        assert_eq!(rt; answered.view_broker.units.len(), 1);
    }
    Ok(())
}
