//! Four queries in five pairs of worlds each: a site sees the same in both, and it would not where the tape stayed as it is and a private
//! value that the query reads is another one.
ghost use Rattle.std.specs.Prelude.{◌≡◌, true, length, IfOk};
ghost use Rattle.pdn_tree.specs.Shapes.{shape};
ghost use Rattle.pdn_twin_tests.specs.Pairs.{AreTwo};

use crate::plans::{plan_of, schema};
use crate::tables::{Fact, Records, tables_of};
use crate::worlds::{TwoWorlds, ready, worlds_of};
use pdn_base::{Memory, Site};
use pdn_broker::{Answered, answer};
use pdn_dealer::ChaChaDeal;
use pdn_plan::Plan;
use pdn_schema::Schema;
use pdn_twin::twin;
use pdn_view::print_view;
use std::alloc::Global;
use std::test::Fail;
use std::thread::Threads;

/// Diagnoses of the flu with a later medication, patient by patient.
const SLICED_JOIN: &str =
    "SELECT d.pid FROM diag d JOIN med m ON d.pid = m.pid WHERE d.code = 'flu' AND m.day >= d.day + 1;";

const COMMON_CODES: &str =
    "SELECT code, COUNT(*) AS n FROM diag GROUP BY code HAVING COUNT(*) >= 3;";

const EARLY_PATIENTS: &str = "SELECT DISTINCT pid FROM diag WHERE day < 9;";

/// Patients with a second infection 15 to 56 days after the one before.
const RECURRENT: &str =
    "WITH d AS (SELECT pid, day, ROW_NUMBER() OVER (PARTITION BY pid ORDER BY day) AS r FROM diag WHERE code = 'cdiff') SELECT DISTINCT a.pid FROM d a JOIN d b ON a.pid = b.pid AND b.r = a.r + 1 WHERE b.day >= a.day + 15 AND b.day <= a.day + 56 ORDER BY pid;";

/// What the site that looks has.
const OWN: Records = Records {
    diag: &[(1, "flu", 1), (2, "cdiff", 10), (2, "flu", 12)],
    med: &[(1, "tam", 2), (2, "tam", 20)],
};

const FLU: Fact = (1, "flu", 3);

const CDIFF: Fact = (2, "cdiff", 30);

const OTHER_FLU: Fact = (2, "flu", 8);

/// Patient 3 is at the other site alone.
const ALONE: Fact = (3, "cdiff", 5);

const TAM: Fact = (1, "tam", 4);

const OTHER_TAM: Fact = (2, "tam", 9);

/// What the other site has in the first world.
const FIRST: Records = Records {
    diag: &[FLU, CDIFF, OTHER_FLU, ALONE],
    med: &[TAM, OTHER_TAM],
};

/// And in each of the second ones: the same in another order, another early day, another code, a day that is no longer early, and
/// another drug, which no query reads.
const SECOND: [Records; 5] = [
    Records {
        diag: &[ALONE, OTHER_FLU, CDIFF, FLU],
        med: &[OTHER_TAM, TAM],
    },
    Records {
        diag: &[(1, "flu", 4), CDIFF, OTHER_FLU, ALONE],
        med: &[TAM, OTHER_TAM],
    },
    Records {
        diag: &[FLU, (2, "flu", 30), OTHER_FLU, ALONE],
        med: &[TAM, OTHER_TAM],
    },
    Records {
        diag: &[FLU, CDIFF, (2, "flu", 9), ALONE],
        med: &[TAM, OTHER_TAM],
    },
    Records {
        diag: &[FLU, CDIFF, OTHER_FLU, ALONE],
        med: &[(1, "ibu", 4), OTHER_TAM],
    },
];

/// A query, and in which of the second worlds other rows of that site enter the circuits. Found by hand: of a table enter the rows that
/// meet the WHERE clauses on it alone, cut to the columns that the query names beside these, in ascending order.
type Case = (&'static str, [bool; 5]);

const CASES: [Case; 4] = [
    (SLICED_JOIN, [false, true, true, true, false]),
    (COMMON_CODES, [false, false, true, false, false]),
    (EARLY_PATIENTS, [false, false, false, true, false]),
    (RECURRENT, [false, false, true, false, false]),
];

const TICKET: u64 = 7;

fn deal() -> ChaChaDeal {
    ChaChaDeal::new([7; 32])
}

// What the site sees, as text: in the first world, and in the second on the changed tape.
fn twin_texts<R: Threads + Sync>(
    rt: &R,
    alloc: Global,
    site: Site,
    schema: &Schema,
    plan: &Plan,
    tables: &TwoWorlds,
) -> Result<(Vec<u8>, Vec<u8>), Memory>
    requires sound { (shape schema.now plan.now.root).sound ≡ true }
    requires two { length schema.now.tables ≡ 2 }
    requires own { AreTwo tables.now.own }
    requires first { AreTwo tables.now.first }
    requires second { AreTwo tables.now.second }
{
    let worlds = worlds_of(alloc, site, schema, plan, tables)?;
    let twin = twin(rt, alloc, worlds, TICKET, &deal(), 2)?;
    Ok((
        print_view(alloc, &twin.first)?,
        print_view(alloc, &twin.second)?,
    ))
}

// What it sees in the second world on the tape as it was.
fn unchanged_text<R: Threads + Sync>(
    rt: &R,
    alloc: Global,
    site: Site,
    schema: &Schema,
    plan: &Plan,
    tables: &TwoWorlds,
) -> Result<Vec<u8>, Memory>
    requires sound { (shape schema.now plan.now.root).sound ≡ true }
    requires two { length schema.now.tables ≡ 2 }
    requires own { AreTwo tables.now.own }
    requires second { AreTwo tables.now.second }
{
    let second = ready(alloc, site, schema, plan, &tables.own, &tables.second)?;
    let answered = answer(rt, alloc, second, TICKET, &deal(), 2)?;
    text_of(alloc, site, &answered)
}

fn text_of(alloc: Global, site: Site, answered: &Answered) -> Result<Vec<u8>, Memory> {
    match site {
        Site::A => print_view(alloc, &answered.view_a),
        Site::B => print_view(alloc, &answered.view_b),
    }
}

fn two_worlds(alloc: Global, second: Records) -> Result<TwoWorlds, Memory>
    ensures own { IfOk result (λ tables. AreTwo tables.own) }
    ensures first { IfOk result (λ tables. AreTwo tables.first) }
    ensures second { IfOk result (λ tables. AreTwo tables.second) }
{
    Ok(TwoWorlds {
        own: tables_of(alloc, OWN)?,
        first: tables_of(alloc, FIRST)?,
        second: tables_of(alloc, second)?,
    })
}

// Whether the site sees the same in this pair of worlds, and something else exactly where it should if the tape stays as it is.
fn is_as_wanted<R: Threads + Sync>(
    rt: &R,
    alloc: Global,
    site: Site,
    sql: &str,
    second: Records,
    differs: bool,
) -> Result<bool, Memory> {
    let schema = schema(alloc)?;
    let plan = plan_of(alloc, &schema, sql)?;
    let tables = two_worlds(alloc, second)?;
    if schema.tables.len() != 2 {
        return Err(Memory);
    }
    let (first, changed) = twin_texts(rt, alloc, site, &schema, &plan, &tables)?;
    let unchanged = unchanged_text(rt, alloc, site, &schema, &plan, &tables)?;
    Ok(first == changed && (first != unchanged) == differs)
}

#[test]
fn a_site_sees_the_same_in_both_worlds(rt: HostRuntime) -> Result<(), Fail> {
    for (sql, differs) in &CASES {
        for at in 0..5 {
            for site in [Site::A, Site::B] {
                let wanted = is_as_wanted(&rt, rt.alloc(), site, sql, SECOND[at], differs[at])?;
                assert!(rt; wanted, "{sql} {at} {site}");
            }
        }
    }
    Ok(())
}
