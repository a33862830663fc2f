//! Conditions on rows.
ghost use Rattle.std.specs.Prelude.{◌≡◌};
ghost use Rattle.pdn_base.specs.Values.{rank_of};
ghost use Rattle.pdn_base.specs.Conditions.{meets, cmp_true, clause_true, term_value, operand_value};

use crate::{Code, Row, Value};
use std::cmp::Ordering;
use std::marker::Model;

/// A sign between two values.
#[derive(Clone, Copy, Debug, Drop)]
pub enum Op {
    Eq,
    Ne,
    Lt,
    Le,
    Gt,
    Ge,
}

/// A column of a row, and what is added to it.
#[derive(Clone, Copy, Debug, Drop)]
pub struct Term {
    pub column: u32,
    pub plus: Option<u32>,
}

/// What a term is compared with.
#[derive(Clone, Copy, Debug, Drop)]
pub enum Operand {
    Term(Term),
    Int(u32),
    Code(Code),
}

/// A comparison.
#[derive(Clone, Copy, Debug, Drop)]
pub struct Cmp {
    pub left: Term,
    pub op: Op,
    pub right: Operand,
}

/// Comparisons of which one is to be true. Contracts see the list of them.
#[derive(Debug, Drop)]
pub struct Clause {
    pub any: Vec<Cmp>,
}

impl Model for Clause {
    ghost use Rattle.std.specs.Prelude.{List};
    ghost use Rattle.pdn_base.specs.declared.cond.Cmp.{Cmp};

    ghost Value = { List Cmp };

    ghost view = { λ c. c.any.items };
}

/// Clauses that are all to be true. Contracts see the list of them.
#[derive(Debug, Drop)]
pub struct Cond {
    pub all: Vec<Clause>,
}

impl Model for Cond {
    ghost use Rattle.std.specs.Prelude.{List};
    ghost use Rattle.pdn_base.specs.declared.cond.Cmp.{Cmp};

    ghost Value = { List (List Cmp) };

    ghost view = { λ c. c.all.items };
}

/// The rank of a term's value. A sum does not wrap.
fn term_rank(term: &Term, row: &Row) -> (u8, u64)
    ensures { result ≡ rank_of (term_value term.now row.now) }
{
    let value = row.cell(term.column);
    match (value, term.plus) {
        (Value::Int(m), Some(n)) => (value.rank().0, u64::from(m) + u64::from(n)),
        _ => value.rank(),
    }
}

fn operand_rank(operand: &Operand, row: &Row) -> (u8, u64)
    ensures { result ≡ rank_of (operand_value operand.now row.now) }
{
    match operand {
        Operand::Term(term) => term_rank(term, row),
        Operand::Int(n) => Value::Int(*n).rank(),
        Operand::Code(code) => Value::Code(*code).rank(),
    }
}

fn cmp_holds(row: &Row, cmp: &Cmp) -> bool
    ensures { result ≡ cmp_true row.now cmp.now }
{
    let left = term_rank(&cmp.left, row);
    let right = operand_rank(&cmp.right, row);
    let order = left.cmp(&right);
    match cmp.op {
        Op::Eq => order == Ordering::Equal,
        Op::Ne => order != Ordering::Equal,
        Op::Lt => order == Ordering::Less,
        Op::Le => order != Ordering::Greater,
        Op::Gt => order == Ordering::Greater,
        Op::Ge => order != Ordering::Less,
    }
}

/// Whether every clause has a true comparison.
pub fn row_meets(cond: &Cond, row: &Row) -> bool
    ensures { result ≡ meets cond.now row.now }
{
    cond.all.iter().all(
        |clause: &Clause| -> bool
            ensures { result ≡ clause_true row.entry.now clause.now }
        {
            clause.any.iter().any(
                |cmp: &Cmp| -> bool
                    ensures { result ≡ cmp_true row.entry.now cmp.now }
                { cmp_holds(row, cmp) },
            )
        },
    )
}
