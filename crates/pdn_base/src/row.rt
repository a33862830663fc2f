//! Rows, and lists of rows.
ghost use Rattle.std.specs.Prelude.{◌≡◌, IfOk};
ghost use Rattle.pdn_base.specs.Values.{cell, same_row};

use crate::{Memory, Value};
use std::alloc::Global;
use std::cmp::Ordering;
use std::marker::Model;

/// A row. Contracts see the list of its values.
#[derive(Debug, Drop)]
pub struct Row {
    pub values: Vec<Value>,
}

impl Model for Row {
    ghost use Rattle.std.specs.Prelude.{List};
    ghost use Rattle.pdn_base.specs.declared.value.Value.{Value as Cell};

    ghost Value = { List Cell };

    ghost view = { λ r. r.values.items };
}

impl PartialEq for Row {
    ghost use Rattle.std.specs.Cmp.{partial_equiv_from_equiv};
    ghost use Rattle.std.proofs.lemmas.Cmp.{eq_by_cmp_equiv};
    ghost use Rattle.pdn_base.specs.Totals.{cells_cmp-total};

    ghost eq = { same_row };

    ghost laws = { partial_equiv_from_equiv (eq_by_cmp_equiv cells_cmp-total) };

    fn eq(&self, other: &Row) -> bool {
        self.cmp(other) == Ordering::Equal
    }
}

impl Eq for Row {
    ghost use Rattle.std.proofs.lemmas.Cmp.{eq_by_cmp_equiv};
    ghost use Rattle.pdn_base.specs.Totals.{cells_cmp-total};

    ghost laws = { eq_by_cmp_equiv cells_cmp-total };
}

impl PartialOrd for Row {
    ghost use Rattle.std.specs.Ordering.{as_partial_cmp};
    ghost use Rattle.std.specs.Cmp.{partial_order_from_own_ties};
    ghost use Rattle.std.specs.Cmp.Rules.{comparing};
    ghost use Rattle.std.proofs.Common.{rules};
    ghost use Rattle.pdn_base.specs.Values.{cells_cmp};

    ghost partial_cmp = { as_partial_cmp cells_cmp };

    ghost laws = { partial_order_from_own_ties (Prim.search (comparing, rules)) (Prim.search (comparing, rules)) };

    fn partial_cmp(&self, other: &Row) -> Option<Ordering> {
        Some(self.cmp(other))
    }
}

impl Ord for Row {
    ghost use Rattle.std.specs.Cmp.Rules.{comparing};
    ghost use Rattle.std.proofs.Common.{rules};
    ghost use Rattle.pdn_base.specs.Values.{cells_cmp};
    ghost use Rattle.pdn_base.specs.Totals.{cells_cmp-total};

    ghost cmp = { cells_cmp };

    ghost total = { cells_cmp-total };

    ghost matches_partial_cmp = { Prim.search (comparing, rules) };

    ghost matches_eq = { Prim.search (comparing, rules) };

    fn cmp(&self, other: &Row) -> Ordering {
        self.values.cmp(&other.values)
    }
}

impl Row {
    /// The row of these values.
    pub fn new(values: Vec<Value>) -> Row
        ensures { result ≡ values.items }
    {
        Row { values }
    }

    /// Its values.
    pub fn values(&self) -> &[Value]
        ensures { result.now ≡ self.now }
    {
        self.values.as_slice()
    }

    /// The value of a column; of no column of it, the number 0.
    pub fn cell(&self, column: u32) -> Value
        ensures { result ≡ cell self.now column }
    {
        match self.values.get(column as usize) {
            Some(value) => *value,
            None => Value::Int(0),
        }
    }

    /// An equal row.
    pub fn copy(&self, alloc: Global) -> Result<Row, Memory>
        ensures { IfOk result (λ row. row ≡ self.now) }
    {
        let values = Vec::from_slice(alloc, self.values.as_slice())?;
        Ok(Row { values })
    }
}

/// A list of rows. Contracts see the list of the lists of their values.
#[derive(Debug, Drop)]
pub struct Rows {
    pub rows: Vec<Row>,
}

impl Model for Rows {
    ghost use Rattle.std.specs.Prelude.{List};
    ghost use Rattle.pdn_base.specs.declared.value.Value.{Value as Cell};

    ghost Value = { List (List Cell) };

    ghost view = { λ r. r.rows.items };
}

impl Rows {
    /// Its rows.
    pub fn as_slice(&self) -> &[Row]
        ensures { result.now ≡ self.now }
    {
        self.rows.as_slice()
    }

    /// Equal rows.
    pub fn copy(&self, alloc: Global) -> Result<Rows, Memory>
        ensures { IfOk result (λ rows. rows ≡ self.now) }
    {
        let rows = copy_all(alloc, self.rows.as_slice())?;
        Ok(Rows { rows })
    }
}

fn copy_all(alloc: Global, rows: &[Row]) -> Result<Vec<Row>, Memory>
    ensures { IfOk result (λ copies. copies.items ≡ rows.now) }
{
    let mut copies = Vec::new(alloc);
    for row in rows {
        copies.push(row.copy(alloc)?)?;
    }
    Ok(copies)
}

/// The rows of each table of a schema, in the schema's order. Contracts see the list of these lists.
#[derive(Debug, Drop)]
pub struct Tables {
    pub lists: Vec<Rows>,
}

impl Model for Tables {
    ghost use Rattle.std.specs.Prelude.{List};
    ghost use Rattle.pdn_base.specs.declared.value.Value.{Value as Cell};

    ghost Value = { List (List (List Cell)) };

    ghost view = { λ t. t.lists.items };
}

impl Tables {
    /// Equal tables.
    pub fn copy(&self, alloc: Global) -> Result<Tables, Memory>
        ensures { IfOk result (λ tables. tables ≡ self.now) }
    {
        let lists = copy_lists(alloc, self.lists.as_slice())?;
        Ok(Tables { lists })
    }
}

fn copy_lists(alloc: Global, lists: &[Rows]) -> Result<Vec<Rows>, Memory>
    ensures { IfOk result (λ copies. copies.items ≡ lists.now) }
{
    let mut copies = Vec::new(alloc);
    for rows in lists {
        copies.push(rows.copy(alloc)?)?;
    }
    Ok(copies)
}
