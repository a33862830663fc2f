//! The two worlds of a twin.
ghost use Rattle.std.specs.Prelude.{◌≡◌, ◌<◌, ◌-◌, ◌^◌, ℕ, List, None, Option, length, IfOk, IfSome};
ghost use Rattle.std.specs.List.{All, zip};
ghost use Rattle.pdn_base.specs.Bounds.{IsShort};
ghost use Rattle.pdn_base.specs.Operators.{Rows as RowsModel};
ghost use Rattle.pdn_agree.specs.Agreement.{Union as UnionModel, Agree, other_tables};
ghost use Rattle.pdn_query.specs.Each.{each};
ghost use Rattle.pdn_query.specs.Script.{Script};
ghost use Rattle.pdn_query.specs.Walk.{Came};
ghost use Rattle.pdn_query.specs.World.{WorldModel};
ghost use Rattle.pdn_commands.specs.Twinning.{TwoWorlds as WorldsModel, other_site, second_world, given_or, given_tables, importing_file, keeping_both, judging_worlds};
ghost use Rattle.pdn_commands.specs.HandedOn.{AreTablesOf};

use crate::folder::{FileText, rows_given};
use pdn_base::{Memory, Rows, Site, Tables};
use pdn_query::{Outside, compared, judged, kept_tables};
use pdn_schema::Schema;
use pdn_script::Stop;
use std::alloc::Global;
use std::marker::Model;

/// Both sites' tables.
#[derive(Debug, Drop)]
pub(crate) struct Union {
    pub a: Tables,
    pub b: Tables,
}

impl Model for Union {
    ghost use Rattle.pdn_agree.specs.Agreement.{Union as BothTables};

    ghost Value = { BothTables };

    ghost view = { λ u. record { a = u.a; b = u.b } };
}

impl Union {
    // The tables of the site that isn't this one.
    fn other(&self, site: Site) -> &Tables
        ensures { result.now ≡ other_tables site self.now }
    {
        match site {
            Site::A => &self.b,
            Site::B => &self.a,
        }
    }
}

/// A site, the schema, and two worlds that agree in what the site may see: only rows of the other site differ, and no set of values of
/// a public column.
#[derive(Debug, Drop)]
pub(crate) struct TwoWorlds {
    pub site: Site,
    pub schema: Schema,
    pub first: Union,
    pub second: Union,
}

impl Model for TwoWorlds {
    ghost use Rattle.pdn_commands.specs.Twinning.{TwoWorlds as BothWorlds};
    ghost use Rattle.pdn_agree.specs.Agreement.{Agree};

    ghost Value = { BothWorlds };

    ghost view = { λ w. record { site = w.site; schema = w.schema; first = w.first; second = w.second } };

    ghost invariant = { λ w. Agree w.site w.schema w.first w.second };
}

/// The site that isn't this one.
fn other_site(site: Site) -> Site
    ensures { result ≡ other_site site }
{
    match site {
        Site::A => Site::B,
        Site::B => Site::A,
    }
}

/// Both worlds, over the rows that both sites keep and, in the second, the rows of these files of the other site's tables where they are
/// there; or the first refusal.
pub(crate) fn worlds_of<W: Outside>(
    alloc: Global,
    site: Site,
    schema: Schema,
    texts: &[FileText],
    world: &mut W,
) -> Result<TwoWorlds, Stop>
    requires { length texts.now ≡ length schema.tables }
    ensures came { (next : WorldsModel → Script) →
        Came (W.state world.old) (W.state world.new)
        (each importing_file (zip schema.tables texts.now) (λ given.
        keeping_both schema (λ first. judging_worlds site schema first
        (given_tables given (other_tables site first)) next)))
        (λ worlds. next worlds) result }
    ensures same { (W.state world.new).told ≡ (W.state world.old).told }
{
    let given = rows_given(alloc, &schema, texts)?;
    let first = kept_both(alloc, &schema, world)?;
    let tables = given_tables(alloc, &given, first.other(site))?;
    judged_worlds(alloc, site, schema, first, tables)
}

// Both sites' rows of every table, A's first.
fn kept_both<W: Outside>(alloc: Global, schema: &Schema, world: &mut W) -> Result<Union, Stop>
    ensures came { (next : UnionModel → Script) →
        Came (W.state world.old) (W.state world.new) (keeping_both schema.now next)
        (λ first. next first) result }
    ensures a { IfOk result (λ first. AreTablesOf schema.now first.a) }
    ensures b { IfOk result (λ first. AreTablesOf schema.now first.b) }
    ensures same { (W.state world.new).told ≡ (W.state world.old).told }
{
    let a = kept_tables(alloc, Site::A, schema, world)?;
    let b = kept_tables(alloc, Site::B, schema, world)?;
    Ok(Union { a, b })
}

// Of each table the rows that are given, or else the kept ones.
fn given_tables(alloc: Global, given: &[Option<Rows>], kept: &Tables) -> Result<Tables, Memory>
    requires count { length given.now ≡ length kept.now }
    requires given { All (λ (rows : Option RowsModel). IfSome rows IsShort) given.now }
    requires kept { All (λ (rows : RowsModel). length rows < 2 ^ 32 - 1) kept.now }
    ensures are { IfOk result (λ tables. tables ≡ given_tables given.now kept.now) }
    ensures count { IfOk result (λ tables. length tables ≡ length kept.now) }
    ensures short { IfOk result
        (λ tables. All (λ (rows : RowsModel). length rows < 2 ^ 32 - 1) tables) }
{
    let mut lists = Vec::new(alloc);
    for at in 0..given.len() {
        lists.push(given_or(alloc, &given[at], &kept.lists[at])?)?;
    }
    Ok(Tables { lists })
}

// The rows that are given, or else the kept ones.
fn given_or(alloc: Global, given: &Option<Rows>, kept: &Rows) -> Result<Rows, Memory>
    ensures { IfOk result (λ rows. rows ≡ given_or given.now kept.now) }
{
    match given {
        Some(rows) => rows.copy(alloc),
        None => kept.copy(alloc),
    }
}

// Both worlds, where all rows are valid and nothing public differs.
fn judged_worlds(
    alloc: Global,
    site: Site,
    schema: Schema,
    first: Union,
    tables: Tables,
) -> Result<TwoWorlds, Stop>
    requires a { AreTablesOf schema first.a }
    requires b { AreTablesOf schema first.b }
    requires second { AreTablesOf schema tables }
    ensures { (w : WorldModel) (next : WorldsModel → Script) →
        Came w w (judging_worlds site schema first tables next) (λ worlds. next worlds) result }
{
    agreed(alloc, site, &schema, &first, &tables)?;
    let second = second_world(alloc, site, &first, tables)?;
    Ok(TwoWorlds {
        site,
        schema,
        first,
        second,
    })
}

// That all rows of both worlds are valid and nothing public differs, or the first refusal.
fn agreed(
    alloc: Global,
    site: Site,
    schema: &Schema,
    first: &Union,
    tables: &Tables,
) -> Result<(), Stop>
    requires a { AreTablesOf schema.now first.now.a }
    requires b { AreTablesOf schema.now first.now.b }
    requires second { AreTablesOf schema.now tables.now }
    ensures came { (w : WorldModel) (next : WorldsModel → Script) →
        Came w w (judging_worlds site schema.now first.now tables.now next)
        (λ _. next (record {
          site = site;
          schema = schema.now;
          first = first.now;
          second = second_world site first.now tables.now;
        })) result }
    ensures agree { IfOk result
        (λ _. Agree site schema.now first.now (second_world site first.now tables.now)) }
{
    judged(alloc, Site::A, schema, &first.a)?;
    judged(alloc, Site::B, schema, &first.b)?;
    judged(alloc, other_site(site), schema, tables)?;
    compared(alloc, schema, first.other(site), tables)
}

// The world in which the other site has these tables.
fn second_world(alloc: Global, site: Site, first: &Union, tables: Tables) -> Result<Union, Memory>
    ensures { IfOk result (λ second. second ≡ second_world site first.now tables) }
{
    match site {
        Site::A => Ok(Union {
            a: first.a.copy(alloc)?,
            b: tables,
        }),
        Site::B => Ok(Union {
            a: tables,
            b: first.b.copy(alloc)?,
        }),
    }
}
