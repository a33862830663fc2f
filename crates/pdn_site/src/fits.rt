//! Conditions, keys and lengths that fit the columns of a list. What the type of a number keeps is known once it is looked at.
ghost use Rattle.std.specs.Prelude.{◌≡◌, ◌<◌, ◌≤◌, ◌*◌, length, IfOk};
ghost use Rattle.std.specs.List.{AllByRecursion};
ghost use Rattle.pdn_obl_rows.specs.Lists.{kind_at};
ghost use Rattle.pdn_obl_rows.specs.Conditions.{ClauseFits, CmpFits, CondFits, OperandFits, PlusFits, TermFits};
ghost use Rattle.pdn_obl_rank.specs.Keys.{KeysFit};

use pdn_base::{Clause, Cmp, Cond, Key, Kind, Memory, Operand, Term};
use pdn_circuit::BuildErr;

/// Something doesn't fit the lists that it is for: a condition, a key or a length, which no sound plan has, or a row, which no
/// valid table has.
#[derive(Clone, Copy, Debug, Drop)]
pub struct Unfit;

impl From<Unfit> for BuildErr {
    ghost use Rattle.std.specs.Prelude.{◌≡◌};
    ghost use Rattle.pdn_circuit.specs.declared.tally.BuildErr.TheVariants.{Memory};

    ghost from_gives = { λ _ e. e ≡ Memory };

    // What an operator of no sound plan asks is answered as memory that is wanting.
    fn from(_: Unfit) -> BuildErr {
        BuildErr::Memory
    }
}

impl From<Unfit> for Memory {
    ghost from_gives = { λ _ _. Unit {0} };

    // So it is of rows that valid tables have nowhere, as they enter a circuit.
    fn from(_: Unfit) -> Memory {
        Memory
    }
}

fn plus_fits(kind: Kind, plus: Option<u32>) -> Result<(), Unfit>
    ensures fits { IfOk result (λ _. PlusFits kind plus) }
{
    match (kind, plus) {
        (_, None) => Ok(()),
        (Kind::Int, Some(_)) => Ok(()),
        (Kind::Code, Some(_)) => Err(Unfit),
    }
}

/// A term over columns of these kinds; its own kind.
fn term_fits(kinds: &[Kind], term: &Term) -> Result<Kind, Unfit>
    ensures fits { IfOk result (λ kind. TermFits kinds.now term.now kind) }
    ensures own { IfOk result (λ kind. kind_at kinds.now term.now.column ≡ kind) }
{
    let column = term.column as usize;
    if column < kinds.len() {
        let kind = kinds[column];
        plus_fits(kind, term.plus)?;
        Ok(kind)
    } else {
        Err(Unfit)
    }
}

fn same_kind(left: Kind, right: Kind) -> Result<(), Unfit>
    ensures same { IfOk result (λ _. left ≡ right) }
{
    match (left, right) {
        (Kind::Int, Kind::Int) => Ok(()),
        (Kind::Code, Kind::Code) => Ok(()),
        _ => Err(Unfit),
    }
}

fn operand_fits(kinds: &[Kind], operand: &Operand, kind: Kind) -> Result<(), Unfit>
    ensures fits { IfOk result (λ _. OperandFits kinds.now operand.now kind) }
{
    match operand {
        Operand::Term(term) => {
            let own = term_fits(kinds, term)?;
            same_kind(own, kind)
        }
        Operand::Int(number) => {
            let _number = *number;
            same_kind(kind, Kind::Int)
        }
        Operand::Code(code) => {
            let _number = code.number();
            same_kind(kind, Kind::Code)
        }
    }
}

fn cmp_fits(kinds: &[Kind], cmp: &Cmp) -> Result<(), Unfit>
    ensures fits { IfOk result (λ _. CmpFits kinds.now cmp.now) }
{
    let kind = term_fits(kinds, &cmp.left)?;
    operand_fits(kinds, &cmp.right, kind)
}

fn clause_fits(kinds: &[Kind], clause: &[Cmp]) -> Result<(), Unfit>
    ensures fits { IfOk result (λ _. ClauseFits kinds.now clause.now) }
{
    match clause.split_first() {
        None => Ok(()),
        Some((cmp, rest)) => {
            cmp_fits(kinds, cmp)?;
            clause_fits(kinds, rest)
        }
    }
}

fn clauses_fit(kinds: &[Kind], clauses: &[Clause]) -> Result<(), Unfit>
    ensures fits { IfOk result (λ _. CondFits kinds.now clauses.now) }
{
    match clauses.split_first() {
        None => Ok(()),
        Some((clause, rest)) => {
            clause_fits(kinds, clause.any.as_slice())?;
            clauses_fit(kinds, rest)
        }
    }
}

/// Whether a condition fits columns of these kinds.
pub fn cond_fits(kinds: &[Kind], cond: &Cond) -> Result<(), Unfit>
    ensures fits { IfOk result (λ _. CondFits kinds.now cond.now) }
{
    clauses_fit(kinds, cond.all.as_slice())
}

/// Whether these columns are among so many.
pub fn columns_fit(count: usize, columns: &[u32]) -> Result<(), Unfit>
    ensures fits { IfOk result (λ _. AllByRecursion (λ column. column < count) columns.now) }
{
    match columns.split_first() {
        None => Ok(()),
        Some((column, rest)) => {
            if (*column as usize) < count {
                columns_fit(count, rest)
            } else {
                Err(Unfit)
            }
        }
    }
}

fn order_fits(count: usize, order: &[Key]) -> Result<(), Unfit>
    ensures fits { IfOk result (λ _. AllByRecursion (λ (key : Key). key.column < count) order.now) }
{
    match order.split_first() {
        None => Ok(()),
        Some((key, rest)) => {
            if (key.column as usize) < count {
                order_fits(count, rest)
            } else {
                Err(Unfit)
            }
        }
    }
}

/// Whether the columns of a partition and an order are among so many, and neither is too long to count.
pub fn keys_fit(count: usize, partition: &[u32], order: &[Key]) -> Result<(), Unfit>
    ensures fits { IfOk result (λ _. KeysFit count partition.now order.now) }
    ensures columns { IfOk result (λ _. count ≤ 65536) }
    ensures keys { IfOk result (λ _. length order.now ≤ 65536) }
{
    if 65536 < count || 65536 < order.len() {
        return Err(Unfit);
    }
    columns_fit(count, partition)?;
    order_fits(count, order)
}

/// Whether the pairs of two lists' rows are a list.
pub fn pairs_fit(left: u32, right: u32) -> Result<(), Unfit>
    ensures { IfOk result (λ _. left * right ≤ 4096) }
{
    if 4096 < u64::from(left) * u64::from(right) {
        return Err(Unfit);
    }
    Ok(())
}

/// Whether both sites' rows of a leaf, so many from each, are a list.
pub fn leaf_fits(rows: u32) -> Result<(), Unfit>
    ensures { IfOk result (λ _. 2 * rows ≤ 4096) }
{
    if 2048 < rows {
        return Err(Unfit);
    }
    Ok(())
}
