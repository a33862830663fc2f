//! Plans.

ghost use Rattle.std.specs.Prelude.{◌≡◌, IfOk};

use crate::Node;
use pdn_base::{ColumnName, Kind, Label, Memory, Name};
use std::alloc::Global;
use std::marker::Model;

/// A column of an answer: its output name, the name by which a refusal would speak of it, the kind of its values, and how
/// far it may be shown.
#[derive(Debug, Drop)]
pub struct OutColumn {
    pub name: ColumnName,
    pub source: ColumnName,
    pub kind: Kind,
    pub label: Label,
}

/// A plan: its tree, whose root is its one `Top`, and the columns of its answer, all of them public.
#[derive(Debug, Drop)]
pub struct Plan {
    pub root: Node,
    pub columns: Vec<OutColumn>,
}

impl Model for Plan {
    ghost use Rattle.pdn_tree.specs.Plans.{PlanModel, IsPlan};
    ghost use Rattle.pdn_tree.specs.contracts.node.Node as tree;
    ghost use Rattle.std.specs.Coded.{codes};

    ghost Value = { PlanModel };

    ghost coded = { Prim.hlevel (codes, tree.the_row.coded) };

    ghost view = { λ p. record { root = p.root; columns = p.columns.items } };

    ghost invariant = { λ p. IsPlan (record { root = p.root; columns = p.columns.items }) };
}

impl OutColumn {
    /// An equal column. Its one error is Memory.
    pub fn copy(&self, alloc: Global) -> Result<OutColumn, Memory>
        ensures { IfOk result (λ copied. copied ≡ self.now) }
    {
        Ok(OutColumn {
            name: Name::new(alloc, self.name.as_str())?,
            source: Name::new(alloc, self.source.as_str())?,
            kind: self.kind,
            label: self.label,
        })
    }
}

impl Plan {
    /// An equal plan. Its one error is Memory.
    pub fn copy(&self, alloc: Global) -> Result<Plan, Memory>
        ensures { IfOk result (λ copied. copied ≡ self.now) }
    {
        let mut columns = Vec::new(alloc);
        for column in &self.columns {
            columns.push(column.copy(alloc)?)?;
        }
        Ok(Plan {
            root: self.root.copy(alloc)?,
            columns,
        })
    }
}
