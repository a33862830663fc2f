//! Which clauses go to which source, and which columns are kept.

ghost use Rattle.std.specs.Prelude.{◌≡◌, ◌++◌, ◌+◌, ◌∷◌, [], cond, IfOk, map, filter};
ghost use Rattle.std.specs.List.{flat_map, range_with_len};
ghost use Rattle.pdn_tree.specs.Columns.{place_in, has, shifted, operand_at, cmp_at, clauses_at};
ghost use Rattle.pdn_plan.specs.Splitting.{renamed, is_of, operand_passes, cmp_passes, clause_passes, operand_columns, cmp_columns, clauses_columns, local_to, left_by, kept_of, left_over, ons};

use crate::scope::Bound;
use pdn_base::{Clause, Cmp, Cond, Memory, Operand, Term};
use pdn_tree::copy_clause;
use sqlite_items::Items;
use std::alloc::Global;

/// How columns are named anew: by the places of their own source, which begins here; or by their places among these.
#[derive(Debug, Drop)]
pub enum Renaming {
    Back(u32),
    Among(Items<u32>),
}

/// Where a column stands among those that are kept.
pub fn place_in(kept: &[u32], column: u32) -> Result<u32, Memory>
    ensures { IfOk result (λ at. at ≡ place_in kept.now column) }
{
    match kept.split_first() {
        None => Ok(0),
        Some((first, rest)) => {
            if *first == column {
                return Ok(0);
            }
            let after = place_in(rest, column)?;
            if after == u32::MAX {
                return Err(Memory);
            }
            Ok(after + 1)
        }
    }
}

/// Whether a column is one of these.
pub fn has(kept: &[u32], column: u32) -> bool
    ensures { result ≡ has kept.now column }
{
    kept.iter().any(|k| *k == column)
}

fn renamed(by: &Renaming, column: u32) -> Result<u32, Memory>
    ensures { IfOk result (λ c. c ≡ renamed by.now column) }
{
    match by {
        Renaming::Back(from) => Ok(column.saturating_sub(*from)),
        Renaming::Among(kept) => place_in(kept.as_slice(), column),
    }
}

fn operand_at(by: &Renaming, operand: &Operand) -> Result<Operand, Memory>
    ensures { IfOk result (λ o. o ≡ operand_at (renamed by.now) operand.now) }
{
    match operand {
        Operand::Term(term) => {
            let column = renamed(by, term.column)?;
            Ok(Operand::Term(Term {
                column,
                plus: term.plus,
            }))
        }
        Operand::Int(n) => Ok(Operand::Int(*n)),
        Operand::Code(code) => Ok(Operand::Code(*code)),
    }
}

fn clause_at(alloc: Global, by: &Renaming, clause: &Clause) -> Result<Clause, Memory>
    ensures { IfOk result (λ c. c ≡ map (cmp_at (renamed by.now)) clause.now) }
{
    let mut any = Vec::new(alloc);
    for cmp in &clause.any {
        let column = renamed(by, cmp.left.column)?;
        let right = operand_at(by, &cmp.right)?;
        any.push(Cmp {
            left: Term {
                column,
                plus: cmp.left.plus,
            },
            op: cmp.op,
            right,
        })?;
    }
    Ok(Clause { any })
}

/// The clauses with their columns named anew.
pub fn clauses_at(alloc: Global, by: &Renaming, clauses: &Cond) -> Result<Cond, Memory>
    ensures { IfOk result (λ c. c ≡ clauses_at (renamed by.now) clauses.now) }
{
    let mut all = Vec::new(alloc);
    for clause in &clauses.all {
        all.push(clause_at(alloc, by, clause)?)?;
    }
    Ok(Cond { all })
}

fn is_of(from: u32, width: u32, column: u32) -> bool
    ensures { result ≡ is_of from width column }
{
    from <= column && u64::from(column) < u64::from(from) + u64::from(width)
}

fn operand_passes(from: u32, width: u32, operand: &Operand) -> bool
    ensures { result ≡ operand_passes (is_of from width) operand.now }
{
    match operand {
        Operand::Term(term) => is_of(from, width, term.column),
        Operand::Int(_) => true,
        Operand::Code(_) => true,
    }
}

fn clause_passes(from: u32, width: u32, clause: &Clause) -> bool
    ensures { result ≡ clause_passes (is_of from width) clause.now }
{
    clause.any.iter().all(
        |cmp: &Cmp| -> bool
            ensures { result ≡ cmp_passes (is_of from width) cmp.now }
        { is_of(from, width, cmp.left.column) && operand_passes(from, width, &cmp.right) },
    )
}

fn mine(alloc: Global, from: u32, width: u32, asked: &Cond) -> Result<Cond, Memory>
    ensures { IfOk result (λ c. c ≡ filter (clause_passes (is_of from width)) asked.now) }
{
    let mut all = Vec::new(alloc);
    for clause in &asked.all {
        if clause_passes(from, width, clause) {
            all.push(copy_clause(alloc, clause)?)?;
        }
    }
    Ok(Cond { all })
}

/// The clauses on one source alone, by its own places.
pub fn local_to(alloc: Global, from: u32, width: u32, asked: &Cond) -> Result<Cond, Memory>
    ensures { IfOk result (λ c. c ≡ local_to from width asked.now) }
{
    let own = mine(alloc, from, width, asked)?;
    clauses_at(alloc, &Renaming::Back(from), &own)
}

/// The clauses that are not on this source alone.
pub fn left_by(alloc: Global, from: u32, width: u32, asked: &Cond) -> Result<Cond, Memory>
    ensures { IfOk result (λ c. c ≡ left_by from width asked.now) }
{
    let mut all = Vec::new(alloc);
    for clause in &asked.all {
        if !clause_passes(from, width, clause) {
            all.push(copy_clause(alloc, clause)?)?;
        }
    }
    Ok(Cond { all })
}

fn operand_columns(alloc: Global, operand: &Operand) -> Result<Vec<u32>, Memory>
    ensures { IfOk result (λ out. out.items ≡ operand_columns operand.now) }
{
    let mut out = Vec::new(alloc);
    if let Operand::Term(term) = operand {
        out.push(term.column)?;
    }
    Ok(out)
}

fn clause_columns(alloc: Global, clause: &Clause) -> Result<Vec<u32>, Memory>
    ensures { IfOk result (λ out. out.items ≡ flat_map cmp_columns clause.now) }
{
    let mut out = Vec::new(alloc);
    for cmp in &clause.any {
        let mut right = operand_columns(alloc, &cmp.right)?;
        out.push(cmp.left.column)?;
        out.append(&mut right)?;
    }
    Ok(out)
}

/// The columns that clauses name.
pub fn clauses_columns(alloc: Global, clauses: &Cond) -> Result<Vec<u32>, Memory>
    ensures { IfOk result (λ out. out.items ≡ clauses_columns clauses.now) }
{
    let mut out = Vec::new(alloc);
    for clause in &clauses.all {
        let mut more = clause_columns(alloc, clause)?;
        out.append(&mut more)?;
    }
    Ok(out)
}

fn push_if(out: Vec<u32>, keep: bool, column: u32) -> Result<Vec<u32>, Memory>
    ensures { IfOk result (λ v. v.items ≡ out.items ++ cond keep (column ∷ []) []) }
{
    let mut out = out;
    if keep {
        out.push(column)?;
    }
    Ok(out)
}

fn sum(a: u32, b: u32) -> Result<u32, Memory>
    ensures { IfOk result (λ n. n ≡ a + b) }
{
    match a.checked_add(b) {
        Some(n) => Ok(n),
        None => Err(Memory),
    }
}

/// The columns of a source that are needed, by its own places.
pub fn kept_of(alloc: Global, needed: &[u32], from: u32, width: u32) -> Result<Vec<u32>, Memory>
    ensures { IfOk result (λ out. out.items ≡ kept_of (has needed.now) from width) }
{
    let mut out = Vec::new(alloc);
    for column in 0..width {
        let at = sum(from, column)?;
        out = push_if(out, has(needed, at), column)?;
    }
    Ok(out)
}

/// The columns that are needed, of so many.
pub fn needed_below(alloc: Global, needed: &[u32], width: u32) -> Result<Vec<u32>, Memory>
    ensures { IfOk result (λ out. out.items ≡ filter (has needed.now) (range_with_len 0 width)) }
{
    let mut out = Vec::new(alloc);
    for column in 0..width {
        out = push_if(out, has(needed, column), column)?;
    }
    Ok(out)
}

/// The WHERE clauses that go to no source.
pub fn left_over(alloc: Global, from: u32, asked: Cond, bounds: &[Bound]) -> Result<Cond, Memory>
    ensures { IfOk result (λ c. c ≡ left_over from asked bounds.now) }
{
    match bounds.split_first() {
        None => Ok(asked),
        Some((bound, rest)) => {
            let left = left_by(alloc, from, bound.width, &asked)?;
            left_over(alloc, sum(from, bound.width)?, left, rest)
        }
    }
}

/// The columns that the ON clauses name.
pub fn ons_columns(alloc: Global, bounds: &[Bound]) -> Result<Vec<u32>, Memory>
    ensures { IfOk result (λ out. out.items ≡ clauses_columns (ons bounds.now)) }
{
    match bounds.split_first() {
        None => Ok(Vec::new(alloc)),
        Some((bound, rest)) => {
            let mut out = clauses_columns(alloc, &bound.on)?;
            let mut more = ons_columns(alloc, rest)?;
            out.append(&mut more)?;
            Ok(out)
        }
    }
}

/// Columns, and after them those of a source that begins at `from`.
pub fn with_shifted(kept: Vec<u32>, from: u32, keep: &[u32]) -> Result<Vec<u32>, Memory>
    ensures { IfOk result (λ out. out.items ≡ kept.items ++ shifted from keep.now) }
{
    let mut out = kept;
    for column in keep {
        out.push(sum(from, *column)?)?;
    }
    Ok(out)
}
