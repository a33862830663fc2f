//! Rows as they enter a circuit.
ghost use Rattle.std.specs.Prelude.{◌≡◌, ◌∷◌, ◌++◌, [], map, IfOk, OnOk};
ghost use Rattle.pdn_base.specs.declared.marks.Kind.TheVariants as kind;
ghost use Rattle.pdn_tree.specs.Meaning.{mean, table_of};
ghost use Rattle.pdn_tree.specs.Shapes.{kind_at, kinds};
ghost use Rattle.pdn_site.specs.Circuits.{table_kinds};
ghost use Rattle.pdn_site.specs.SiteRows.{entered};
ghost use Rattle.pdn_site.specs.Entering.{first_per, leaf_words, is_local, entered_words};

use crate::fits::Unfit;
use crate::holding::rows_held;
use crate::lengths::per_of;
use crate::narrowing::{after, narrowed, scans};
use pdn_base::{Kind, Memory, Rows, Tables, Value, Word, sort_rows};
use pdn_level::Leaf;
use pdn_obl_rows::encode;
use pdn_plain::run_local;
use pdn_schema::{Column, Schema};
use pdn_tree::Node;
use std::alloc::Global;

/// Rows as they enter a circuit: in ascending order of all columns, from the first place on. Rows for which the list has no
/// room, or of other kinds, which valid tables give nowhere, are answered as memory that is wanting.
#[tactic(auto, using(crate::proofs::RowLists::listed_are, crate::proofs::RowLists::listed_few))]
pub fn entered(alloc: Global, rows: Rows, kinds: &[Kind], len: u32) -> Result<Vec<Word>, Memory>
    ensures { IfOk result (λ words. words.items ≡ entered rows kinds.now len) }
{
    let rows = sort_rows(rows, &[])?;
    if (len as usize) < rows.rows.len() {
        return Err(Memory::from(Unfit));
    }
    rows_held(alloc, &rows, kinds)?;
    encode(alloc, &rows, kinds, len)
}

fn kind_at(kinds: &[Kind], column: u32) -> Kind
    ensures { result ≡ kind_at kinds.now column }
{
    match kinds.get(column as usize) {
        Some(kind) => *kind,
        None => Kind::Int,
    }
}

fn kinds_at(alloc: Global, kinds: &[Kind], columns: &[u32]) -> Result<Vec<Kind>, Memory>
    ensures { IfOk result (λ out. out.items ≡ map (kind_at kinds.now) columns.now) }
{
    Ok(
        columns
            .iter()
            .map(
                |column: &u32| -> Kind
                    ensures { result ≡ kind_at kinds.entry.now column.now }
                { kind_at(kinds, *column) },
            )
            .collect(alloc)?,
    )
}

fn column_kinds(alloc: Global, columns: &[Column]) -> Result<Vec<Kind>, Memory>
    ensures { IfOk result (λ out. out.items ≡ map (λ c. c.kind) columns.now) }
{
    Ok(
        columns
            .iter()
            .map(
                |column: &Column| -> Kind
                    ensures { result ≡ column.now.kind }
                { column.kind },
            )
            .collect(alloc)?,
    )
}

fn table_kinds(alloc: Global, schema: &Schema, table: u32) -> Result<Vec<Kind>, Memory>
    ensures { IfOk result (λ out. out.items ≡ table_kinds schema.now table) }
{
    match schema.tables.get(table as usize) {
        None => Ok(Vec::new(alloc)),
        Some(t) => column_kinds(alloc, t.columns.as_slice()),
    }
}

/// A last column, with a count or a place.
fn with_count(kinds: Vec<Kind>) -> Result<Vec<Kind>, Memory>
    ensures { IfOk result (λ out. out.items ≡ kinds.items ++ kind.Int ∷ []) }
{
    let mut out = kinds;
    out.push(Kind::Int)?;
    Ok(out)
}

/// The kind of each column that a tree gives.
pub fn kinds_of(alloc: Global, schema: &Schema, node: &Node) -> Result<Vec<Kind>, Memory>
    ensures { IfOk result (λ out. out.items ≡ kinds schema.now node.now) }
{
    match node {
        Node::Scan { table } => table_kinds(alloc, schema, *table),
        Node::Project { child, columns } => {
            let below = kinds_of(alloc, schema, child.get())?;
            kinds_at(alloc, below.as_slice(), columns.as_slice())
        }
        Node::Join { left, right, .. } => {
            let mut out = kinds_of(alloc, schema, left.get())?;
            let mut more = kinds_of(alloc, schema, right.get())?;
            out.append(&mut more)?;
            Ok(out)
        }
        Node::Group { child, keys, .. } => {
            let below = kinds_of(alloc, schema, child.get())?;
            with_count(kinds_at(alloc, below.as_slice(), keys.as_slice())?)
        }
        Node::Count { .. } => with_count(Vec::new(alloc)),
        Node::Number { child, .. } => with_count(kinds_of(alloc, schema, child.get())?),
        Node::Filter { child, .. } | Node::Distinct { child } | Node::Top { child, .. } => {
            kinds_of(alloc, schema, child.get())
        }
    }
}

/// In how many rows of a site one value of the first leaf's column may stand.
fn first_per(schema: &Schema, leaves: &[Leaf]) -> u32
    ensures { result ≡ first_per schema.now leaves.now }
{
    match leaves.first() {
        None => 0,
        Some(leaf) => per_of(schema, leaf.table, leaf.column),
    }
}

/// A leaf's words: its rows through its table's leaf.
fn leaf_words(
    alloc: Global,
    schema: &Schema,
    tables: &Tables,
    tree: &Node,
    leaves: &[Leaf],
) -> Result<Vec<Word>, Memory>
    ensures { IfOk result (λ words. words.items
        ≡ leaf_words schema.now tables.now tree.now leaves.now) }
{
    let rows = run_local(alloc, schema, tree, tables)?;
    let kinds = kinds_of(alloc, schema, tree)?;
    entered(alloc, rows, kinds.as_slice(), first_per(schema, leaves))
}

pub(crate) fn is_local(node: &Node) -> bool
    ensures { result ≡ is_local node.now }
{
    match node {
        Node::Scan { .. } => true,
        Node::Filter { child, .. } | Node::Project { child, .. } => is_local(child.get()),
        Node::Join { .. }
        | Node::Group { .. }
        | Node::Count { .. }
        | Node::Distinct { .. }
        | Node::Number { .. }
        | Node::Top { .. } => false,
    }
}

/// The words of a tree's leaves at a value, where a Local tree is one leaf.
pub fn entered_words(
    alloc: Global,
    schema: &Schema,
    tables: &Tables,
    node: &Node,
    leaves: &[Leaf],
    value: &Value,
) -> Result<Vec<Word>, Memory>
    ensures { IfOk result (λ words. words.items
        ≡ entered_words schema.now tables.now value.now node.now leaves.now) }
{
    if is_local(node) {
        let tree = narrowed(alloc, node, leaves, value)?;
        return leaf_words(alloc, schema, tables, &tree, leaves);
    }
    match node {
        Node::Scan { .. } => Ok(Vec::new(alloc)),
        Node::Filter { child, .. } => {
            entered_words(alloc, schema, tables, child.get(), leaves, value)
        }
        Node::Project { child, .. } => {
            entered_words(alloc, schema, tables, child.get(), leaves, value)
        }
        Node::Join { left, right, .. } => {
            let mut words = entered_words(alloc, schema, tables, left.get(), leaves, value)?;
            let rest = after(leaves, scans(left.get(), value)?);
            let mut more = entered_words(alloc, schema, tables, right.get(), rest, value)?;
            words.append(&mut more)?;
            Ok(words)
        }
        Node::Group { child, .. }
        | Node::Count { child }
        | Node::Distinct { child }
        | Node::Number { child, .. }
        | Node::Top { child, .. } => {
            entered_words(alloc, schema, tables, child.get(), leaves, value)
        }
    }
}
