//! The rows that a site keeps of the tables that a plan scans.
ghost use Rattle.std.specs.Prelude.{◌≡◌, ◌<◌, ◌-◌, ◌^◌, List, length, IfOk};
ghost use Rattle.std.specs.List.{All};
ghost use Rattle.pdn_base.specs.Bounds.{IsShort};
ghost use Rattle.pdn_base.specs.Operators.{Rows as RowsModel};
ghost use Rattle.pdn_schema.specs.Models.{table_of};
ghost use Rattle.pdn_query.specs.Answering.{scans, asking, asking_if};
ghost use Rattle.pdn_query.specs.Questions.{Kept};
ghost use Rattle.pdn_query.specs.Script.{Script, Ask};
ghost use Rattle.pdn_query.specs.Walk.{Came};

use crate::who::who_of;
use crate::world::Outside;
use pdn_base::{Rows, Site, Status, Tables};
use pdn_keeper::KeepErr;
use pdn_plan::{Node, Plan};
use pdn_schema::Schema;
use pdn_script::{Stop, refused};
use std::alloc::Global;

/// For each table of the schema, in order, the rows that a site keeps of it where the plan scans it, and else none.
pub fn tables_at<W: Outside>(
    alloc: Global,
    site: Site,
    schema: &Schema,
    plan: &Plan,
    world: &mut W,
) -> Result<Tables, Stop>
    ensures came { (next : List RowsModel → Script) →
        Came (W.state world.old) (W.state world.new)
        (asking site plan.now.root 0 schema.now.tables next) (λ tables. next tables) result }
    ensures count { IfOk result (λ tables. length tables ≡ length schema.now.tables) }
    ensures short { IfOk result
        (λ tables. All (λ (rows : RowsModel). length rows < 2 ^ 32 - 1) tables) }
    ensures same { (W.state world.new).told ≡ (W.state world.old).told }
{
    scanned(alloc, site, schema, &plan.root, world)
}

// The same, where a tree scans the table.
fn scanned<W: Outside>(
    alloc: Global,
    site: Site,
    schema: &Schema,
    root: &Node,
    world: &mut W,
) -> Result<Tables, Stop>
    ensures came { (next : List RowsModel → Script) →
        Came (W.state world.old) (W.state world.new)
        (asking site root.now 0 schema.now.tables next) (λ tables. next tables) result }
    ensures count { IfOk result (λ tables. length tables ≡ length schema.now.tables) }
    ensures short { IfOk result
        (λ tables. All (λ (rows : RowsModel). length rows < 2 ^ 32 - 1) tables) }
    ensures same { (W.state world.new).told ≡ (W.state world.old).told }
{
    let mut lists = Vec::new(alloc);
    for at in 0..schema.tables.len() {
        let rows = rows_if(alloc, site, schema, root, at as u32, world)?;
        lists.push(rows)?;
    }
    Ok(Tables { lists })
}

// A site's rows of a table where the tree scans it, and else none.
fn rows_if<W: Outside>(
    alloc: Global,
    site: Site,
    schema: &Schema,
    root: &Node,
    table: u32,
    world: &mut W,
) -> Result<Rows, Stop>
    requires { table < length schema.now.tables }
    ensures came { (next : RowsModel → Script) →
        Came (W.state world.old) (W.state world.new)
        (asking_if (scans table root.now) site (table_of schema.now table) next)
        (λ rows. next rows) result }
    ensures short { IfOk result (λ rows. IsShort rows) }
    ensures same { (W.state world.new).told ≡ (W.state world.old).told }
{
    if scans(root, table) {
        return rows_at(alloc, site, schema, table, world);
    }
    Ok(Rows {
        rows: Vec::new(alloc),
    })
}

// A site's rows of a table, or the refusal that names the site.
pub(crate) fn rows_at<W: Outside>(
    alloc: Global,
    site: Site,
    schema: &Schema,
    table: u32,
    world: &mut W,
) -> Result<Rows, Stop>
    requires { table < length schema.now.tables }
    ensures came { (next : RowsModel → Script) →
        Came (W.state world.old) (W.state world.new)
        (Ask (Kept site (table_of schema.now table).name) next) (λ rows. next rows) result }
    ensures short { IfOk result (λ rows. IsShort rows) }
    ensures same { (W.state world.new).told ≡ (W.state world.old).told }
{
    match world.rows(alloc, site, schema, table) {
        Ok(rows) => Ok(rows),
        Err(KeepErr::Failed) => Err(refused(alloc, Status::Unavailable { who: who_of(site) })),
        Err(KeepErr::Memory) => Err(Stop::Memory),
    }
}

// Whether a tree scans the table of this number.
fn scans(node: &Node, at: u32) -> bool
    ensures { result ≡ scans at node.now }
{
    match node {
        Node::Scan { table } => *table == at,
        Node::Join { left, right, .. } => scans(left.get(), at) || scans(right.get(), at),
        Node::Filter { child, .. }
        | Node::Project { child, .. }
        | Node::Group { child, .. }
        | Node::Count { child }
        | Node::Distinct { child }
        | Node::Number { child, .. }
        | Node::Top { child, .. } => scans(child.get(), at),
    }
}
