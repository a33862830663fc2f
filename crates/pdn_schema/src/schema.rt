//! Schemas.

ghost use Rattle.std.specs.Prelude.{◌≡◌, ◌<◌, length, IfOk, IfSome, IsNone, ◌↔◌};
ghost use Rattle.pdn_schema.specs.Models.{table_of};
ghost use Rattle.pdn_schema.specs.Schemas.{IsTable};

use crate::Name;
use pdn_base::{Kind, Label, Memory};
use std::alloc::Global;
use std::marker::Model;

/// Someone who may send queries to the desk, and how many.
#[derive(Debug, Drop)]
pub struct Caller {
    pub name: Name,
    pub calls: u32,
}

/// A column: the kind of its values, how far it may be shown, and, where it is public, in how many rows of a site one
/// value may stand (0 where it isn't).
#[derive(Debug, Drop)]
pub struct Column {
    pub name: Name,
    pub kind: Kind,
    pub mark: Label,
    pub per: u32,
}

/// A table: how many rows a site may hold, and its columns.
#[derive(Debug, Drop)]
pub struct Table {
    pub name: Name,
    pub rows: u32,
    pub columns: Vec<Column>,
}

impl Model for Table {
    ghost use Rattle.pdn_schema.specs.Models.{TableModel};

    ghost Value = { TableModel };

    ghost view = { λ t. record { name = t.name; rows = t.rows; columns = t.columns.items } };
}

/// A schema: from how many rows on a protected group may be shown, who may call, and the tables.
#[derive(Debug, Drop)]
pub struct Schema {
    pub floor: u32,
    pub callers: Vec<Caller>,
    pub tables: Vec<Table>,
}

impl Model for Schema {
    ghost use Rattle.pdn_schema.specs.Models.{SchemaModel};
    ghost use Rattle.pdn_schema.specs.Schemas.{IsSchema};

    ghost Value = { SchemaModel };

    ghost view = { λ s. record { floor = s.floor; callers = s.callers.items; tables = s.tables.items } };

    ghost invariant = { λ s. IsSchema (record { floor = s.floor; callers = s.callers.items; tables = s.tables.items }) };
}

impl Caller {
    fn copy(&self, alloc: Global) -> Result<Caller, Memory>
        ensures { IfOk result (λ c. c ≡ self.now) }
    {
        Ok(Caller {
            name: self.name.copy(alloc)?,
            calls: self.calls,
        })
    }
}

impl Column {
    fn copy(&self, alloc: Global) -> Result<Column, Memory>
        ensures { IfOk result (λ c. c ≡ self.now) }
    {
        Ok(Column {
            name: self.name.copy(alloc)?,
            kind: self.kind,
            mark: self.mark,
            per: self.per,
        })
    }
}

impl Table {
    fn copy(&self, alloc: Global) -> Result<Table, Memory>
        ensures { IfOk result (λ t. t ≡ self.now) }
    {
        Ok(Table {
            name: self.name.copy(alloc)?,
            rows: self.rows,
            columns: copy_columns(alloc, &self.columns)?,
        })
    }
}

impl Schema {
    /// The table of this number.
    pub fn table(&self, table: u32) -> &Table
        requires { table < length self.now.tables }
        ensures is { result.now ≡ table_of self.now table }
        ensures fits { IsTable result.now }
    {
        &self.tables[table as usize]
    }

    /// An equal schema.
    pub fn copy(&self, alloc: Global) -> Result<Schema, Memory>
        ensures { IfOk result (λ s. s ≡ self.now) }
    {
        Ok(Schema {
            floor: self.floor,
            callers: copy_callers(alloc, &self.callers)?,
            tables: copy_tables(alloc, &self.tables)?,
        })
    }
}

fn copy_callers(alloc: Global, callers: &[Caller]) -> Result<Vec<Caller>, Memory>
    ensures { IfOk result (λ copies. copies.items ≡ callers.now) }
{
    let mut copies = Vec::new(alloc);
    for c in callers {
        copies.push(c.copy(alloc)?)?;
    }
    Ok(copies)
}

fn copy_columns(alloc: Global, columns: &[Column]) -> Result<Vec<Column>, Memory>
    ensures { IfOk result (λ copies. copies.items ≡ columns.now) }
{
    let mut copies = Vec::new(alloc);
    for c in columns {
        copies.push(c.copy(alloc)?)?;
    }
    Ok(copies)
}

fn copy_tables(alloc: Global, tables: &[Table]) -> Result<Vec<Table>, Memory>
    ensures { IfOk result (λ copies. copies.items ≡ tables.now) }
{
    let mut copies = Vec::new(alloc);
    for t in tables {
        copies.push(t.copy(alloc)?)?;
    }
    Ok(copies)
}
