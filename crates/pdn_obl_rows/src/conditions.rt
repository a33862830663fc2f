//! The gates of conditions on the rows of a list, at one of its words.
ghost use Rattle.std.specs.Prelude.{◌≡◌, ◌<◌, ◌≤◌, ◌^◌, length, IfOk, IfErr};
ghost use Rattle.std.specs.List.{All};
ghost use Rattle.pdn_circuit.specs.Building.{GivesGate, GivesGates, Tries, TriesList};
ghost use Rattle.pdn_circuit.specs.Compare.{literal_planes};
ghost use Rattle.pdn_obl_rows.specs.Lists.{width_of, words_for, kind_at, word_planes};
ghost use Rattle.pdn_obl_rows.specs.Conditions.{CondFits, ClauseFits, CmpFits, TermFits, column_word, term_gates, operand_gates, filled, op_gates, compare_gates, cmp_gates, clause_gates, cond_gates};
ghost use Rattle.pdn_obl_rows.specs.Operators.{IsThere};

use crate::shape::width;
use crate::{Padded, Plane};
use pdn_base::{Clause, Cmp, Cond, Kind, Op, Operand, Term};
use pdn_circuit::{BuildErr, Builder};
use std::alloc::{AllocError, Global};

/// The clauses of a condition.
pub(crate) fn clauses(cond: &Cond) -> &[Clause]
    ensures { result.now ≡ cond.now }
{
    cond.all.as_slice()
}

fn comparisons(clause: &Clause) -> &[Cmp]
    ensures { result.now ≡ clause.now }
{
    clause.any.as_slice()
}

/// The rows of a word that meet all of these clauses.
pub(crate) fn cond_gate(
    alloc: Global,
    b: &mut Builder,
    list: &Padded,
    word: usize,
    clauses: &[Clause],
) -> Result<u32, BuildErr>
    requires there { IsThere b.old list.now }
    requires word { word < words_for list.now.len }
    requires fits { CondFits list.now.kinds clauses.now }
    ensures made { Tries b.old b.new (cond_gates list.now word clauses.now) result }
    ensures there { GivesGate b.new result }
{
    if clauses.is_empty() {
        let _gates = b.len();
        return Ok(1);
    }
    let mut all = clause_gate(alloc, b, list, word, comparisons(&clauses[0]))?;
    for k in 1..clauses.len() {
        let next = clause_gate(alloc, b, list, word, comparisons(&clauses[k]))?;
        all = b.and(all, next)?;
    }
    Ok(all)
}

/// The rows of a word for which one of these comparisons is true.
fn clause_gate(
    alloc: Global,
    b: &mut Builder,
    list: &Padded,
    word: usize,
    clause: &[Cmp],
) -> Result<u32, BuildErr>
    requires there { IsThere b.old list.now }
    requires word { word < words_for list.now.len }
    requires fits { ClauseFits list.now.kinds clause.now }
    ensures made { Tries b.old b.new (clause_gates list.now word clause.now) result }
    ensures there { GivesGate b.new result }
{
    if clause.is_empty() {
        let _gates = b.len();
        return Ok(0);
    }
    let mut any = cmp_gate(alloc, b, list, word, &clause[0])?;
    for k in 1..clause.len() {
        let next = cmp_gate(alloc, b, list, word, &clause[k])?;
        any = b.or(any, next)?;
    }
    Ok(any)
}

/// The rows of a word for which a comparison is true.
fn cmp_gate(
    alloc: Global,
    b: &mut Builder,
    list: &Padded,
    word: usize,
    cmp: &Cmp,
) -> Result<u32, BuildErr>
    requires there { IsThere b.old list.now }
    requires word { word < words_for list.now.len }
    requires fits { CmpFits list.now.kinds cmp.now }
    ensures made { Tries b.old b.new (cmp_gates list.now word cmp.now) result }
    ensures there { GivesGate b.new result }
{
    let left = term_planes(alloc, b, list, word, &cmp.left)?;
    let right = right_planes(alloc, b, list, word, cmp)?;
    compare(alloc, b, cmp.op, &left, &right)
}

/// The planes of a comparison's right side.
fn right_planes(
    alloc: Global,
    b: &mut Builder,
    list: &Padded,
    word: usize,
    cmp: &Cmp,
) -> Result<Vec<u32>, BuildErr>
    requires there { IsThere b.old list.now }
    requires word { word < words_for list.now.len }
    requires fits { CmpFits list.now.kinds cmp.now }
    ensures made { TriesList b.old b.new (operand_gates list.now word cmp.now.right) result }
    ensures there { GivesGates b.new result }
{
    match &cmp.right {
        Operand::Term(term) => term_planes(alloc, b, list, word, term),
        Operand::Int(n) => literal(alloc, b, u64::from(*n), Kind::Int),
        Operand::Code(code) => literal(alloc, b, code.number(), Kind::Code),
    }
}

/// The planes of a term: a column's, or their sum with a number.
fn term_planes(
    alloc: Global,
    b: &mut Builder,
    list: &Padded,
    word: usize,
    term: &Term,
) -> Result<Vec<u32>, BuildErr>
    requires there { IsThere b.old list.now }
    requires word { word < words_for list.now.len }
    requires fits { TermFits list.now.kinds term.now (kind_at list.now.kinds term.now.column) }
    ensures made { TriesList b.old b.new (term_gates list.now word term.now) result }
    ensures there { GivesGates b.new result }
{
    let planes = column_word(alloc, list, word, term.column)?;
    let _shaped = list.planes();
    match term.plus {
        None => Ok(planes),
        Some(n) => b.plus(&planes, n),
    }
}

/// A word of each plane of a column.
fn column_word(
    alloc: Global,
    list: &Padded,
    word: usize,
    column: u32,
) -> Result<Vec<u32>, AllocError>
    requires word { word < words_for list.now.len }
    requires column { column < length list.now.kinds }
    ensures { IfOk result (λ planes. planes.items ≡ column_word list.now word column) }
{
    word_planes(alloc, list.column(column as usize), word)
}

/// A word of each of these planes.
pub fn word_planes(alloc: Global, planes: &[Plane], word: usize) -> Result<Vec<u32>, AllocError>
    requires { All (λ plane. word < length plane) planes.now }
    ensures { IfOk result (λ words. words.items ≡ word_planes word planes.now) }
{
    let mut words = Vec::with_capacity(alloc, planes.len())?;
    for plane in planes {
        words.push(plane.words[word])?;
    }
    Ok(words)
}

/// A number as planes that are the builder's constants: all lanes where the number has the bit, else none.
fn literal(alloc: Global, b: &Builder, number: u64, kind: Kind) -> Result<Vec<u32>, BuildErr>
    ensures planes { IfOk result (λ planes. planes.items ≡ literal_planes (width_of kind) number) }
    ensures there { GivesGates b.now result }
    ensures memory { IfErr result (λ err. err ≡ BuildErr.Memory) }
{
    let _gates = b.len();
    let mut planes = Vec::with_capacity(alloc, width(kind) as usize)?;
    for bit in 0..width(kind) {
        planes.push(((number >> bit) & 1) as u32)?;
    }
    Ok(planes)
}

/// The lanes in which two numbers stand to each other as the sign says. The one of fewer planes is filled.
fn compare(
    alloc: Global,
    b: &mut Builder,
    op: Op,
    left: &[u32],
    right: &[u32],
) -> Result<u32, BuildErr>
    requires left_there { All (λ plane. plane < length b.old.gates) left.now }
    requires right_there { All (λ plane. plane < length b.old.gates) right.now }
    ensures made { Tries b.old b.new (compare_gates op left.now right.now) result }
    ensures there { GivesGate b.new result }
{
    let x = filled(alloc, left, right.len())?;
    let y = filled(alloc, right, left.len())?;
    op_gate(b, op, &x, &y)
}

/// These planes and, up to a width, planes that have no lane.
pub fn filled(alloc: Global, planes: &[u32], width: usize) -> Result<Vec<u32>, AllocError>
    ensures { IfOk result (λ wide. wide.items ≡ filled width planes.now) }
{
    let mut wide = Vec::from_slice(alloc, planes)?;
    for _ in 0..width.saturating_sub(planes.len()) {
        wide.push(0)?;
    }
    Ok(wide)
}

fn op_gate(b: &mut Builder, op: Op, x: &[u32], y: &[u32]) -> Result<u32, BuildErr>
    requires x_there { All (λ plane. plane < length b.old.gates) x.now }
    requires y_there { All (λ plane. plane < length b.old.gates) y.now }
    requires widths { length x.now ≡ length y.now }
    ensures made { Tries b.old b.new (op_gates op x.now y.now) result }
    ensures there { GivesGate b.new result }
{
    let _gates = b.len();
    match op {
        Op::Eq => b.equal(x, y),
        Op::Ne => {
            let equal = b.equal(x, y)?;
            b.not(equal)
        }
        Op::Lt => b.less(0, x, y),
        Op::Le => {
            let greater = b.less(0, y, x)?;
            b.not(greater)
        }
        Op::Gt => b.less(0, y, x),
        Op::Ge => {
            let less = b.less(0, x, y)?;
            b.not(less)
        }
    }
}
