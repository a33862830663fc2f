//! The columns that a join's condition makes equal.

ghost use Rattle.std.specs.Prelude.{◌≡◌, IfOk, find, unwrap_or};
ghost use Rattle.std.specs.List.{list_any};
ghost use Rattle.pdn_level.specs.Links.{slice_at, is_equal, pair_with, plain_pair, plain_clause, crosses, link_of, links, names_column, link_at};

use pdn_base::{Clause, Cmp, Cond, Memory, Op, Operand};
use std::alloc::Global;

/// A slice column of a join's left side and one of its right side, each by its own place, that a clause makes equal.
#[derive(Clone, Copy, Debug, Drop)]
pub struct Link {
    pub left: usize,
    pub right: usize,
}

/// Whether a column is a slice column.
pub fn slice_at(slices: &[bool], column: usize) -> bool
    ensures { result ≡ slice_at slices.now column }
{
    match slices.get(column) {
        Some(is) => *is,
        None => false,
    }
}

fn is_equal(op: Op) -> bool
    ensures { result ≡ is_equal op }
{
    match op {
        Op::Eq => true,
        Op::Ne => false,
        Op::Lt => false,
        Op::Le => false,
        Op::Gt => false,
        Op::Ge => false,
    }
}

fn pair_with(left: u32, right: &Operand) -> Option<(u32, u32)>
    ensures { result ≡ pair_with left right.now }
{
    match right {
        Operand::Term(term) => {
            if term.plus.is_some() {
                None
            } else {
                Some((left, term.column))
            }
        }
        Operand::Int(_) => None,
        Operand::Code(_) => None,
    }
}

fn plain_pair(cmp: &Cmp) -> Option<(u32, u32)>
    ensures { result ≡ plain_pair cmp.now }
{
    if is_equal(cmp.op) && !cmp.left.plus.is_some() {
        pair_with(cmp.left.column, &cmp.right)
    } else {
        None
    }
}

fn plain_clause(any: &[Cmp]) -> Option<(u32, u32)>
    ensures { result ≡ plain_clause any.now }
{
    match any.split_first() {
        None => None,
        Some((cmp, rest)) => {
            if rest.is_empty() {
                plain_pair(cmp)
            } else {
                None
            }
        }
    }
}

fn crosses(left: &[bool], right: &[bool], l: u32, r: u32) -> bool
    ensures { result ≡ crosses left.now right.now l r }
{
    let width = left.len();
    let r = r as usize;
    slice_at(left, l as usize) && width <= r && slice_at(right, r - width)
}

fn link_of(left: &[bool], right: &[bool], pair: Option<(u32, u32)>) -> Option<Link>
    ensures { result ≡ link_of left.now right.now pair }
{
    let (l, r) = pair?;
    if crosses(left, right, l, r) {
        return Some(Link {
            left: l as usize,
            right: r as usize - left.len(),
        });
    }
    if crosses(left, right, r, l) {
        return Some(Link {
            left: r as usize,
            right: l as usize - left.len(),
        });
    }
    None
}

/// The links of a join's condition, clause by clause.
pub fn links(alloc: Global, left: &[bool], right: &[bool], on: &Cond) -> Result<Vec<Link>, Memory>
    ensures { IfOk result (λ out. out.items ≡ links left.now right.now on.now) }
{
    Ok(
        on.all
            .iter()
            .filter_map(
                |clause: &Clause| -> Option<Link>
                    ensures { result ≡ link_of left.entry.now right.entry.now
                        (plain_clause clause.now) }
                { link_of(left, right, plain_clause(clause.any.as_slice())) },
            )
            .collect(alloc)?,
    )
}

/// Whether a link names a column of the joined row.
pub fn names_column(width: usize, column: usize, link: &Link) -> bool
    ensures { result ≡ names_column width column link.now }
{
    link.left == column || (width <= column && link.right == column - width)
}

/// Whether some link names a column of the joined row.
pub fn is_linked(links: &[Link], width: usize, column: usize) -> bool
    ensures { result ≡ list_any (names_column width column) links.now }
{
    links.iter().any(
        |link: &Link| -> bool
            ensures { result ≡ names_column width column link.now }
        { names_column(width, column, link) },
    )
}

/// The first link that names a column of the joined row.
pub fn link_at(links: &[Link], width: usize, column: usize) -> Link
    ensures { result ≡ unwrap_or (find (names_column width column) links.now)
        (record { left = 0; right = 0 }) }
{
    match links.split_first() {
        None => Link { left: 0, right: 0 },
        Some((link, rest)) => {
            if names_column(width, column, link) {
                return *link;
            }
            link_at(rest, width, column)
        }
    }
}
