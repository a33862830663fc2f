//! Two worlds of a query.
ghost use Rattle.std.specs.Prelude.{◌≡◌, true, length, IfOk};
ghost use Rattle.pdn_tree.specs.Shapes.{shape};
ghost use Rattle.pdn_agree.specs.Agreement.{SamePublic};
ghost use Rattle.pdn_broker.specs.Prepared.{IsOf, IsPrepared};
ghost use Rattle.pdn_worlds.specs.TwoWorlds.{AreWorlds};
ghost use Rattle.pdn_twin_tests.specs.Pairs.{AreTwo, IsReady, union_of};

use pdn_agree::disagree;
use pdn_base::{Memory, Site, Tables};
use pdn_broker::{PrepareErr, Prepared, prepare};
use pdn_plan::Plan;
use pdn_schema::Schema;
use pdn_twin::Worlds;
use std::alloc::Global;

// The query, made ready where this site has the own tables.
fn prepared(
    alloc: Global,
    site: Site,
    schema: &Schema,
    plan: &Plan,
    own: Tables,
    other: Tables,
) -> Result<Prepared, PrepareErr>
    requires sound { (shape schema.now plan.now.root).sound ≡ true }
    requires two { length schema.now.tables ≡ 2 }
    requires own { AreTwo own }
    requires other { AreTwo other }
    ensures { let both = union_of site own other in
        IfOk result (IsOf schema.now plan.now.root both.a both.b) }
{
    match site {
        Site::A => prepare(alloc, schema, plan, own, other),
        Site::B => prepare(alloc, schema, plan, other, own),
    }
}

/// The same over equal tables.
pub fn ready(
    alloc: Global,
    site: Site,
    schema: &Schema,
    plan: &Plan,
    own: &Tables,
    other: &Tables,
) -> Result<Prepared, Memory>
    requires sound { (shape schema.now plan.now.root).sound ≡ true }
    requires two { length schema.now.tables ≡ 2 }
    requires own { AreTwo own.now }
    requires other { AreTwo other.now }
    ensures { IfOk result (IsReady site schema.now plan.now.root own.now other.now) }
{
    let (own, other) = (own.copy(alloc)?, other.copy(alloc)?);
    match prepared(alloc, site, schema, plan, own, other) {
        Ok(prepared) => Ok(looked_at(prepared)),
        Err(_) => Err(Memory),
    }
}

// What is made ready keeps this.
fn looked_at(prepared: Prepared) -> Prepared
    ensures same { result ≡ prepared }
    ensures kept { IsPrepared result }
{
    let _units = prepared.units();
    prepared
}

// That no public column has other values in the one than in the other.
fn compared(schema: &Schema, first: &Tables, second: &Tables) -> Result<(), Memory>
    requires two { length schema.now.tables ≡ 2 }
    requires first { AreTwo first.now }
    requires second { AreTwo second.now }
    ensures { IfOk result (λ _. SamePublic schema.now first.now second.now) }
{
    match disagree(schema, first, second) {
        None => Ok(()),
        Some(_) => Err(Memory),
    }
}

/// A site's own tables, and the other site's in each of two worlds.
#[derive(Drop)]
pub struct TwoWorlds {
    pub own: Tables,
    pub first: Tables,
    pub second: Tables,
}

/// The query in two worlds, where no public column has other values in the one than in the other.
pub fn worlds_of(
    alloc: Global,
    site: Site,
    schema: &Schema,
    plan: &Plan,
    tables: &TwoWorlds,
) -> Result<Worlds, Memory>
    requires sound { (shape schema.now plan.now.root).sound ≡ true }
    requires two { length schema.now.tables ≡ 2 }
    requires own { AreTwo tables.now.own }
    requires first { AreTwo tables.now.first }
    requires second { AreTwo tables.now.second }
    ensures { IfOk result (λ worlds. AreWorlds worlds.site worlds.first worlds.second) }
{
    compared(schema, &tables.first, &tables.second)?;
    let first = ready(alloc, site, schema, plan, &tables.own, &tables.first)?;
    let second = ready(alloc, site, schema, plan, &tables.own, &tables.second)?;
    Ok(Worlds {
        site,
        first,
        second,
    })
}
