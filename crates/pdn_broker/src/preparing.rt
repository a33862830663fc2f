//! A query is made ready to be answered.
ghost use Rattle.std.specs.Prelude.{◌≡◌, ◌<◌, ◌-◌, ◌^◌, true, length, get_or, [], IfOk, IfErr};
ghost use Rattle.std.specs.List.{All};
ghost use Rattle.pdn_base.specs.Operators.{Rows as RowsModel};
ghost use Rattle.pdn_tree.specs.Shapes.{is_top, kinds, shape};
ghost use Rattle.pdn_level.specs.Levels.{segments_of};
ghost use Rattle.pdn_site.specs.declared.unit.UnitKind.TheVariants as kind;
ghost use Rattle.pdn_site.specs.Engines.{IsEngine, no_unit};
ghost use Rattle.pdn_site.specs.NetMeaning.{site_dirs};
ghost use Rattle.pdn_site.specs.RootWords.{root_inputs};
ghost use Rattle.pdn_broker.specs.declared.preparing.PrepareErr.TheVariants.{Memory};
ghost use Rattle.pdn_broker.specs.Answering.{top_order};
ghost use Rattle.pdn_broker.specs.Prepared.{
  AreEngines,
  AreNoEngines,
  AreTooLarge,
  IsOf,
  IsPrepared,
  IsNotPrepared,
  IsRefusedAlike,
  IsRefusedAt,
  compile_refusal,
};
ghost use Rattle.pdn_broker.specs.Units.{AreUnits, UnitsStand};

use crate::prepared::Prepared;
use crate::shares::Shares;
use crate::units::look_at_units;
use pdn_base::{Key, Kind, Memory, RowsErr, Site, Tables};
use pdn_level::{Staged, levels};
use pdn_schema::Schema;
use pdn_site::{CompileErr, PublicView, SegDirs, SiteEngine, SiteErr, Units, compile, kinds_of};
use pdn_tree::{Node, Plan};
use std::alloc::Global;

/// Why a query is not prepared: the first table of A, else of B, in the order of the schema, whose rows aren't valid, and why; else
/// the first limit that is passed and the number of its unit; or memory ran out.
#[derive(Debug, Drop)]
pub enum PrepareErr {
    Rows {
        site: Site,
        table: u32,
        cause: RowsErr,
    },
    TooLarge {
        limit: u8,
        unit: u64,
    },
    Memory,
}

impl From<Memory> for PrepareErr {
    ghost from_gives = { λ _ e. e ≡ Memory };

    fn from(_: Memory) -> PrepareErr {
        PrepareErr::Memory
    }
}

impl From<CompileErr> for PrepareErr {
    ghost from_gives = { λ cause e. e ≡ compile_refusal cause };

    fn from(cause: CompileErr) -> PrepareErr {
        match cause {
            CompileErr::TooLarge { limit, unit } => PrepareErr::TooLarge { limit, unit },
            CompileErr::Memory => PrepareErr::Memory,
        }
    }
}

/// Both sites' engines.
#[derive(Drop)]
struct BothEngines {
    a: SiteEngine,
    b: SiteEngine,
}

/// What is public of both sites' rows, and the units that it makes.
#[derive(Drop)]
struct PublicUnits {
    view: PublicView,
    units: Units,
}

/// What an answer needs besides: the kinds of its columns, its order, and both sites' words of the root.
#[derive(Drop)]
struct Ends {
    columns: Vec<Kind>,
    order: Vec<Key>,
    own: Shares,
}

/// A site's engine.
fn engine(
    alloc: Global,
    site: Site,
    schema: &Schema,
    plan: &Plan,
    staged: &Staged,
    tables: Tables,
) -> Result<SiteEngine, PrepareErr>
    requires staged { staged.now ≡ segments_of schema.now plan.now.root [] }
    requires count { length tables ≡ length schema.now.tables }
    requires few { All (λ (rows : RowsModel). length rows < 2 ^ 32 - 1) tables }
    ensures made { IfOk result (λ engine. engine ≡ record {
      site = site;
      schema = schema.now;
      root = plan.now.root;
      staged = staged.now;
      tables = tables;
    }) }
    ensures is { IfOk result IsEngine }
    ensures refused { IfErr result (IsRefusedAt site schema.now tables) }
{
    match SiteEngine::new(alloc, site, schema, plan, staged, tables) {
        Ok(engine) => Ok(engine),
        Err(SiteErr::Rows { table, cause }) => Err(PrepareErr::Rows { site, table, cause }),
        Err(SiteErr::Memory) => Err(PrepareErr::Memory),
    }
}

/// Both sites' directories of each segment.
fn public_view(
    alloc: Global,
    staged: &Staged,
    a: &SiteEngine,
    b: &SiteEngine,
) -> Result<PublicView, Memory>
    requires a { a.now.staged ≡ staged.now }
    requires b { b.now.staged ≡ staged.now }
    ensures { IfOk result (λ view. view ≡ site_dirs a.now.tables b.now.tables staged.now) }
{
    let mut dirs = Vec::new(alloc);
    for i in 0..staged.segments.len() {
        // More segments than their numbers can tell.
        let Ok(segment) = u32::try_from(i) else {
            return Err(Memory);
        };
        let values_a = a.directory(alloc, segment)?;
        let values_b = b.directory(alloc, segment)?;
        dirs.push(SegDirs {
            a: values_a,
            b: values_b,
        })?;
    }
    Ok(PublicView { dirs })
}

/// Both sites' words of the root, which is the last unit.
fn root_shares(
    alloc: Global,
    units: &Units,
    a: &SiteEngine,
    b: &SiteEngine,
) -> Result<Shares, Memory>
    requires some { 0 < length units.now }
    requires last { (get_or units.now (length units.now - 1) no_unit).kind ≡ kind.Root }
    ensures { IfOk result (λ own.
        own ≡ record { a = root_inputs a.now units.now; b = root_inputs b.now units.now }) }
{
    let root = units.units.len() as u64 - 1;
    let words_a = a.unit_inputs(alloc, units, root)?;
    let words_b = b.unit_inputs(alloc, units, root)?;
    Ok(Shares {
        a: words_a,
        b: words_b,
    })
}

/// The order of a tree whose root is a Top.
fn order_of(alloc: Global, root: &Node) -> Result<Vec<Key>, Memory>
    ensures { IfOk result (λ order. order.items ≡ top_order root.now) }
{
    match root {
        Node::Top {
            child: _,
            order,
            limit: _,
        } => Ok(Vec::from_slice(alloc, order.as_slice())?),
        _ => Ok(Vec::new(alloc)),
    }
}

/// Both sites' engines. A's tables are looked at before B's.
#[tactic(auto, using(crate::proofs::PreparingLaws::refused_a, crate::proofs::PreparingLaws::refused_second, crate::proofs::PreparingLaws::both_engines))]
fn engines(
    alloc: Global,
    schema: &Schema,
    plan: &Plan,
    staged: &Staged,
    tables_a: Tables,
    tables_b: Tables,
) -> Result<BothEngines, PrepareErr>
    requires staged { staged.now ≡ segments_of schema.now plan.now.root [] }
    requires count_a { length tables_a ≡ length schema.now.tables }
    requires count_b { length tables_b ≡ length schema.now.tables }
    requires few_a { All (λ (rows : RowsModel). length rows < 2 ^ 32 - 1) tables_a }
    requires few_b { All (λ (rows : RowsModel). length rows < 2 ^ 32 - 1) tables_b }
    ensures made { IfOk result (λ engines.
        AreEngines schema.now plan.now.root tables_a tables_b engines.a engines.b) }
    ensures refused { IfErr result (AreNoEngines schema.now tables_a tables_b) }
{
    let a = engine(alloc, Site::A, schema, plan, staged, tables_a)?;
    let b = engine(alloc, Site::B, schema, plan, staged, tables_b)?;
    Ok(BothEngines { a, b })
}

/// The directories of both sites, and the units that they make.
#[tactic(auto, using(crate::proofs::PreparingLaws::too_many, crate::proofs::PreparingLaws::units_made, crate::proofs::PreparingLaws::dirs_made))]
fn units_over(
    alloc: Global,
    schema: &Schema,
    plan: &Plan,
    staged: &Staged,
    a: &SiteEngine,
    b: &SiteEngine,
) -> Result<PublicUnits, PrepareErr>
    requires staged { staged.now ≡ segments_of schema.now plan.now.root [] }
    requires a { a.now.staged ≡ staged.now }
    requires b { b.now.staged ≡ staged.now }
    ensures view { IfOk result (λ made.
        made.view ≡ site_dirs a.now.tables b.now.tables (segments_of schema.now plan.now.root [])) }
    ensures units { IfOk result (λ made.
        AreUnits schema.now a.now.tables b.now.tables plan.now.root made.units) }
    ensures stand { IfOk result (λ made. UnitsStand made.units) }
    ensures large { IfErr result (AreTooLarge schema.now plan.now.root a.now.tables b.now.tables) }
{
    let view = public_view(alloc, staged, a, b)?;
    let units = compile(alloc, schema, plan, staged, &view)?;
    look_at_units(&units);
    Ok(PublicUnits { view, units })
}

/// The kinds and the order of the answer, and both sites' words of the root.
#[tactic(auto, using(crate::proofs::PreparingLaws::last_is_root))]
fn ends_of(
    alloc: Global,
    schema: &Schema,
    plan: &Plan,
    units: &Units,
    engines: &BothEngines,
) -> Result<Ends, Memory>
    requires { AreUnits schema.now engines.now.a.tables engines.now.b.tables plan.now.root
        units.now }
    ensures columns { IfOk result (λ ends. ends.columns.items ≡ kinds schema.now plan.now.root) }
    ensures order { IfOk result (λ ends. ends.order.items ≡ top_order plan.now.root) }
    ensures own { IfOk result (λ ends. ends.own ≡ record {
      a = root_inputs engines.now.a units.now;
      b = root_inputs engines.now.b units.now;
    }) }
{
    let own = root_shares(alloc, units, &engines.a, &engines.b)?;
    let columns = kinds_of(alloc, schema, &plan.root)?;
    let order = order_of(alloc, &plan.root)?;
    Ok(Ends {
        columns,
        order,
        own,
    })
}

// what every plan keeps is known once it is looked at
fn look_at_plan(plan: &Plan)
    ensures { is_top plan.now.root ≡ true }
{
    let _root = &plan.root;
    let _columns = plan.columns.len();
}

/// All of these together.
fn together(engines: BothEngines, made: PublicUnits, ends: Ends) -> Prepared
    requires { IsPrepared (record {
      a = engines.a;
      b = engines.b;
      dirs = made.view;
      units = made.units;
      columns = ends.columns.items;
      order = ends.order.items;
      own = ends.own;
    }) }
    ensures a { result.a ≡ engines.a }
    ensures b { result.b ≡ engines.b }
{
    Prepared {
        a: engines.a,
        b: engines.b,
        view: made.view,
        units: made.units,
        columns: ends.columns,
        order: ends.order,
        own: ends.own,
    }
}

/// Makes the plan of a query ready to be answered over both sites' tables, which stand in the order of the schema.
///
/// A table that isn't valid is refused, A's before B's, and then what passes a limit. What is refused over valid tables is refused for
/// the same cause over every other union of valid tables that agrees with them for a site: a refusal tells nothing of private rows.
#[tactic(auto, using(crate::proofs::PreparingLaws::all_made_of, crate::proofs::PreparingLaws::engines_refused, crate::proofs::PreparingLaws::no_engines, crate::proofs::SameRefusals::no_engines_alike, crate::proofs::SameRefusals::too_large_alike))]
pub fn prepare(
    alloc: Global,
    schema: &Schema,
    plan: &Plan,
    tables_a: Tables,
    tables_b: Tables,
) -> Result<Prepared, PrepareErr>
    requires sound { (shape schema.now plan.now.root).sound ≡ true }
    requires count_a { length tables_a ≡ length schema.now.tables }
    requires count_b { length tables_b ≡ length schema.now.tables }
    requires few_a { All (λ (rows : RowsModel). length rows < 2 ^ 32 - 1) tables_a }
    requires few_b { All (λ (rows : RowsModel). length rows < 2 ^ 32 - 1) tables_b }
    ensures made { IfOk result (IsOf schema.now plan.now.root tables_a tables_b) }
    ensures refused { IfErr result (IsNotPrepared schema.now plan.now.root tables_a tables_b) }
    ensures same { IfErr result (IsRefusedAlike schema.now plan.now.root tables_a tables_b) }
{
    let staged = levels(alloc, schema, plan)?;
    let engines = engines(alloc, schema, plan, &staged, tables_a, tables_b)?;
    let made = units_over(alloc, schema, plan, &staged, &engines.a, &engines.b)?;
    let ends = ends_of(alloc, schema, plan, &made.units, &engines)?;
    look_at_plan(plan);
    Ok(together(engines, made, ends))
}
