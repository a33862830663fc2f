//! Names looked up among the columns that a block sees.

ghost use Rattle.std.specs.Prelude.{◌≡◌, IfOk, count_by, Some, None, map};
ghost use Rattle.std.specs.Str.{bytes_eq};
ghost use Rattle.pdn_tree.specs.Shapes.{kind_at, same_kind};
ghost use Rattle.pdn_plan.specs.Names.{of_fits, col_fits, with_source, col_text, by_count, col_refusal, place, scope_kinds, col_kind, sums_code, operand_refusal, operand_kind, operand_sums_code, clashes, refuse_if, cmp_refusal, clause_refusal, cond_refusal, first_of, placed_term, placed_operand, placed_cmp, placed_clause, placed};
ghost use Rattle.pdn_base.specs.declared.marks.Kind.TheVariants as kind;
ghost use Rattle.pdn_base.specs.declared.cond.Operand.TheVariants as operand;

use crate::scope::{Refusal, Seen};
use pdn_base::{Clause, Cmp, Cond, Kind, Memory, Operand, Term};
use pdn_sql::{Col, Name, SqlClause, SqlCmp, SqlOperand, SqlTerm, Text};
use std::alloc::Global;

fn of_fits(of: &Option<Name>, alias: &Text) -> bool
    ensures { result ≡ of_fits of.now alias.now }
{
    match of {
        None => true,
        Some(name) => name.text.as_bytes() == alias.as_bytes(),
    }
}

fn col_fits(col: &Col, seen: &Seen) -> bool
    ensures { result ≡ col_fits col.now seen.now }
{
    of_fits(&col.of, &seen.of) && col.name.text.as_bytes() == seen.name.as_bytes()
}

fn count_fits(scope: &[Seen], col: &Col) -> usize
    ensures { result ≡ count_by (col_fits col.now) scope.now }
{
    scope
        .iter()
        .filter(
            |seen: &&Seen| -> bool
                ensures { result ≡ col_fits col.entry.now seen.now.now }
            { col_fits(col, *seen) },
        )
        .count()
}

fn with_source(alloc: Global, of: &Option<Name>, name: &Text) -> Result<Text, Memory>
    ensures { IfOk result (λ text. text ≡ with_source of.now name.now) }
{
    match of {
        None => Ok(name.copy(alloc)?),
        Some(source) => {
            let mut bytes = Vec::from_slice(alloc, source.text.as_bytes())?;
            bytes.push(46)?;
            bytes.extend_from_slice(name.as_bytes())?;
            Ok(Text::of(bytes))
        }
    }
}

/// A column as written.
pub fn col_text(alloc: Global, col: &Col) -> Result<Text, Memory>
    ensures { IfOk result (λ text. text ≡ col_text col.now) }
{
    with_source(alloc, &col.of, &col.name.text)
}

/// A refusal where there is cause.
pub fn refuse_if(
    alloc: Global,
    cause: bool,
    kind: u8,
    name: &Text,
) -> Result<Option<Refusal>, Memory>
    ensures { IfOk result (λ r. r ≡ refuse_if cause kind name.now) }
{
    if cause {
        let name = name.copy(alloc)?;
        return Ok(Some(Refusal { kind, name }));
    }
    Ok(None)
}

/// A name is to mean exactly one thing.
pub fn by_count(count: usize, name: Text) -> Option<Refusal>
    ensures { result ≡ by_count count name }
{
    match count {
        0 => Some(Refusal { kind: 2, name }),
        1 => None,
        _ => Some(Refusal { kind: 3, name }),
    }
}

/// Why a column can't be meant.
pub fn col_refusal(alloc: Global, scope: &[Seen], col: &Col) -> Result<Option<Refusal>, Memory>
    ensures { IfOk result (λ r. r ≡ col_refusal scope.now col.now) }
{
    let text = col_text(alloc, col)?;
    Ok(by_count(count_fits(scope, col), text))
}

/// The place of the column that is meant.
pub fn place(scope: &[Seen], col: &Col) -> Result<u32, Memory>
    ensures { IfOk result (λ at. at ≡ place scope.now col.now) }
{
    match scope.split_first() {
        None => Ok(0),
        Some((seen, rest)) => {
            if col_fits(col, seen) {
                return Ok(0);
            }
            let after = place(rest, col)?;
            if after == u32::MAX {
                return Err(Memory);
            }
            Ok(after + 1)
        }
    }
}

/// The kind of the column that is meant.
pub fn col_kind(scope: &[Seen], col: &Col) -> Kind
    ensures { result ≡ col_kind scope.now col.now }
{
    match scope.split_first() {
        None => Kind::Int,
        Some((seen, rest)) => {
            if col_fits(col, seen) {
                return seen.kind;
            }
            col_kind(rest, col)
        }
    }
}

fn same_kind(a: Kind, b: Kind) -> bool
    ensures { result ≡ same_kind a b }
{
    match (a, b) {
        (Kind::Int, Kind::Int) => true,
        (Kind::Code, Kind::Code) => true,
        _ => false,
    }
}

fn sums_code(scope: &[Seen], term: &SqlTerm) -> bool
    ensures { result ≡ sums_code scope.now term.now }
{
    term.plus.is_some() && same_kind(col_kind(scope, &term.col), Kind::Code)
}

fn operand_refusal(
    alloc: Global,
    scope: &[Seen],
    operand: &SqlOperand,
) -> Result<Option<Refusal>, Memory>
    ensures { IfOk result (λ r. r ≡ operand_refusal scope.now operand.now) }
{
    match operand {
        SqlOperand::Term(term) => col_refusal(alloc, scope, &term.col),
        SqlOperand::Int(_) => Ok(None),
        SqlOperand::Code(_) => Ok(None),
    }
}

fn operand_kind(scope: &[Seen], operand: &SqlOperand) -> Kind
    ensures { result ≡ operand_kind scope.now operand.now }
{
    match operand {
        SqlOperand::Term(term) => col_kind(scope, &term.col),
        SqlOperand::Int(_) => Kind::Int,
        SqlOperand::Code(_) => Kind::Code,
    }
}

fn operand_sums_code(scope: &[Seen], operand: &SqlOperand) -> bool
    ensures { result ≡ operand_sums_code scope.now operand.now }
{
    match operand {
        SqlOperand::Term(term) => sums_code(scope, term),
        SqlOperand::Int(_) => false,
        SqlOperand::Code(_) => false,
    }
}

fn clashes(scope: &[Seen], cmp: &SqlCmp) -> bool
    ensures { result ≡ clashes scope.now cmp.now }
{
    sums_code(scope, &cmp.left)
        || operand_sums_code(scope, &cmp.right)
        || !same_kind(
            col_kind(scope, &cmp.left.col),
            operand_kind(scope, &cmp.right),
        )
}

fn clash_refusal(alloc: Global, scope: &[Seen], cmp: &SqlCmp) -> Result<Option<Refusal>, Memory>
    ensures { IfOk result (λ r. r ≡ refuse_if (clashes scope.now cmp.now) 4
        (col_text cmp.now.left.col)) }
{
    let text = col_text(alloc, &cmp.left.col)?;
    refuse_if(alloc, clashes(scope, cmp), 4, &text)
}

fn cmp_refusal(alloc: Global, scope: &[Seen], cmp: &SqlCmp) -> Result<Option<Refusal>, Memory>
    ensures { IfOk result (λ r. r ≡ cmp_refusal scope.now cmp.now) }
{
    let left = col_refusal(alloc, scope, &cmp.left.col)?;
    if left.is_some() {
        return Ok(left);
    }
    let right = operand_refusal(alloc, scope, &cmp.right)?;
    if right.is_some() {
        return Ok(right);
    }
    clash_refusal(alloc, scope, cmp)
}

fn clause_refusal_of(
    alloc: Global,
    scope: &[Seen],
    cmps: &[SqlCmp],
) -> Result<Option<Refusal>, Memory>
    ensures { IfOk result (λ r. r ≡ first_of (cmp_refusal scope.now) cmps.now) }
{
    match cmps.split_first() {
        None => Ok(None),
        Some((cmp, rest)) => {
            let here = cmp_refusal(alloc, scope, cmp)?;
            if here.is_some() {
                return Ok(here);
            }
            clause_refusal_of(alloc, scope, rest)
        }
    }
}

/// Why a condition can't stand: the first comparison that can't.
pub fn cond_refusal(
    alloc: Global,
    scope: &[Seen],
    clauses: &[SqlClause],
) -> Result<Option<Refusal>, Memory>
    ensures { IfOk result (λ r. r ≡ cond_refusal scope.now clauses.now) }
{
    match clauses.split_first() {
        None => Ok(None),
        Some((clause, rest)) => {
            let here = clause_refusal_of(alloc, scope, clause.any.as_slice())?;
            if here.is_some() {
                return Ok(here);
            }
            cond_refusal(alloc, scope, rest)
        }
    }
}

/// The first of some columns that can't be meant.
pub fn cols_refusal(alloc: Global, scope: &[Seen], cols: &[Col]) -> Result<Option<Refusal>, Memory>
    ensures { IfOk result (λ r. r ≡ first_of (col_refusal scope.now) cols.now) }
{
    match cols.split_first() {
        None => Ok(None),
        Some((col, rest)) => {
            let here = col_refusal(alloc, scope, col)?;
            if here.is_some() {
                return Ok(here);
            }
            cols_refusal(alloc, scope, rest)
        }
    }
}

fn placed_term(scope: &[Seen], term: &SqlTerm) -> Result<Term, Memory>
    ensures { IfOk result (λ t. t ≡ placed_term scope.now term.now) }
{
    let column = place(scope, &term.col)?;
    Ok(Term {
        column,
        plus: term.plus,
    })
}

fn placed_operand(scope: &[Seen], operand: &SqlOperand) -> Result<Operand, Memory>
    ensures { IfOk result (λ o. o ≡ placed_operand scope.now operand.now) }
{
    match operand {
        SqlOperand::Term(term) => Ok(Operand::Term(placed_term(scope, term)?)),
        SqlOperand::Int(n) => Ok(Operand::Int(*n)),
        SqlOperand::Code(code) => Ok(Operand::Code(*code)),
    }
}

fn placed_cmps(alloc: Global, scope: &[Seen], cmps: &[SqlCmp]) -> Result<Vec<Cmp>, Memory>
    ensures { IfOk result (λ out. out.items ≡ map (placed_cmp scope.now) cmps.now) }
{
    let mut out = Vec::new(alloc);
    for cmp in cmps {
        let left = placed_term(scope, &cmp.left)?;
        let right = placed_operand(scope, &cmp.right)?;
        out.push(Cmp {
            left,
            op: cmp.op,
            right,
        })?;
    }
    Ok(out)
}

fn placed_clause(alloc: Global, scope: &[Seen], clause: &SqlClause) -> Result<Clause, Memory>
    ensures { IfOk result (λ c. c ≡ placed_clause scope.now clause.now) }
{
    let any = placed_cmps(alloc, scope, clause.any.as_slice())?;
    Ok(Clause { any })
}

/// A condition with each name replaced by its place.
pub fn placed(alloc: Global, scope: &[Seen], clauses: &[SqlClause]) -> Result<Cond, Memory>
    ensures { IfOk result (λ c. c ≡ placed scope.now clauses.now) }
{
    let mut all = Vec::new(alloc);
    for clause in clauses {
        all.push(placed_clause(alloc, scope, clause)?)?;
    }
    Ok(Cond { all })
}

/// The places of some columns.
pub fn places(alloc: Global, scope: &[Seen], cols: &[Col]) -> Result<Vec<u32>, Memory>
    ensures { IfOk result (λ out. out.items ≡ map (place scope.now) cols.now) }
{
    let mut out = Vec::new(alloc);
    for col in cols {
        out.push(place(scope, col)?)?;
    }
    Ok(out)
}
