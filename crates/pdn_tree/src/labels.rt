//! How far the columns of a tree may be shown.

ghost use Rattle.std.specs.Prelude.{◌≡◌, ◌++◌, IfOk, ◌∷◌, [], map, take};
ghost use Rattle.std.specs.List.{list_all};
ghost use Rattle.pdn_tree.specs.Shapes.{labels, label_at, is_public, higher, highest, opened, reaches_floor, group_labels, count_label, table_columns, key_columns};
ghost use Rattle.pdn_base.specs.declared.marks.Label.TheVariants as label;

use crate::Node;
use pdn_base::{Key, Label, Memory};
use pdn_schema::{Column, Schema};
use std::alloc::Global;

/// Whether a column of this label may be shown.
pub fn is_public(label: Label) -> bool
    ensures { result ≡ is_public label }
{
    match label {
        Label::Public => true,
        Label::Protected => false,
        Label::Private => false,
    }
}

fn higher(a: Label, b: Label) -> Label
    ensures { result ≡ higher a b }
{
    match (a, b) {
        (Label::Public, b) => b,
        (Label::Protected, Label::Private) => Label::Private,
        (Label::Protected, _) => Label::Protected,
        (Label::Private, _) => Label::Private,
    }
}

fn opened(label: Label) -> Label
    ensures { result ≡ opened label }
{
    match label {
        Label::Public => Label::Public,
        Label::Protected => Label::Public,
        Label::Private => Label::Private,
    }
}

fn reaches_floor(floor: u32, having: Option<u32>) -> bool
    ensures { result ≡ reaches_floor floor having }
{
    match having {
        None => false,
        Some(n) => floor <= n,
    }
}

/// The label of a column; of no column, private.
pub fn label_at(labels: &[Label], column: u32) -> Label
    ensures { result ≡ label_at labels.now column }
{
    match labels.get(column as usize) {
        Some(label) => *label,
        None => Label::Private,
    }
}

fn labels_at(alloc: Global, labels: &[Label], columns: &[u32]) -> Result<Vec<Label>, Memory>
    ensures { IfOk result (λ out. out.items ≡ map (label_at labels.now) columns.now) }
{
    Ok(
        columns
            .iter()
            .map(
                |column: &u32| -> Label
                    ensures { result ≡ label_at labels.entry.now column.now }
                { label_at(labels, *column) },
            )
            .collect(alloc)?,
    )
}

fn highest_at(labels: &[Label], columns: &[u32]) -> Label
    ensures { result ≡ highest (map (label_at labels.now) columns.now) }
{
    match columns.split_first() {
        None => Label::Public,
        Some((column, rest)) => higher(label_at(labels, *column), highest_at(labels, rest)),
    }
}

fn highest_key(labels: &[Label], order: &[Key]) -> Label
    ensures { result ≡ highest (map (label_at labels.now) (key_columns order.now)) }
{
    match order.split_first() {
        None => Label::Public,
        Some((key, rest)) => higher(label_at(labels, key.column), highest_key(labels, rest)),
    }
}

fn all_public(labels: &[Label]) -> bool
    ensures { result ≡ list_all is_public labels.now }
{
    labels.iter().all(
        |l: &Label| -> bool
            ensures { result ≡ is_public l.now }
        { is_public(*l) },
    )
}

fn count_label(keys: &[Label]) -> Label
    ensures { result ≡ count_label keys.now }
{
    if all_public(keys) {
        Label::Public
    } else {
        Label::Private
    }
}

fn opened_all(alloc: Global, keys: &[Label]) -> Result<Vec<Label>, Memory>
    ensures { IfOk result (λ out. out.items ≡ map opened keys.now) }
{
    Ok(
        keys.iter()
            .map(
                |key: &Label| -> Label
                    ensures { result ≡ opened key.now }
                { opened(*key) },
            )
            .collect(alloc)?,
    )
}

fn group_labels(alloc: Global, opens: bool, keys: Vec<Label>) -> Result<Vec<Label>, Memory>
    ensures { IfOk result (λ out. out.items ≡ group_labels opens keys.items) }
{
    if opens {
        let mut out = opened_all(alloc, keys.as_slice())?;
        out.push(Label::Public)?;
        return Ok(out);
    }
    let count = count_label(keys.as_slice());
    let mut out = keys;
    out.push(count)?;
    Ok(out)
}

fn marks(alloc: Global, columns: &[Column]) -> Result<Vec<Label>, Memory>
    ensures { IfOk result (λ out. out.items ≡ map (λ c. c.mark) columns.now) }
{
    Ok(columns.iter().map(|column| column.mark).collect(alloc)?)
}

fn table_labels(alloc: Global, schema: &Schema, table: u32) -> Result<Vec<Label>, Memory>
    ensures { IfOk result (λ out. out.items ≡ map (λ c. c.mark) (table_columns schema.now table)) }
{
    match schema.tables.get(table as usize) {
        None => Ok(Vec::new(alloc)),
        Some(t) => marks(alloc, t.columns.as_slice()),
    }
}

/// The label of each column that a tree gives.
pub fn labels_of(alloc: Global, schema: &Schema, node: &Node) -> Result<Vec<Label>, Memory>
    ensures { IfOk result (λ out. out.items ≡ labels schema.now node.now) }
{
    match node {
        Node::Scan { table } => table_labels(alloc, schema, *table),
        Node::Filter { child, cond: _ } => labels_of(alloc, schema, child.get()),
        Node::Project { child, columns } => {
            let below = labels_of(alloc, schema, child.get())?;
            labels_at(alloc, below.as_slice(), columns.as_slice())
        }
        Node::Join { left, right, on: _ } => {
            let mut out = labels_of(alloc, schema, left.get())?;
            let mut more = labels_of(alloc, schema, right.get())?;
            out.append(&mut more)?;
            Ok(out)
        }
        Node::Group {
            child,
            keys,
            having,
        } => {
            let below = labels_of(alloc, schema, child.get())?;
            let of_keys = labels_at(alloc, below.as_slice(), keys.as_slice())?;
            group_labels(alloc, reaches_floor(schema.floor, *having), of_keys)
        }
        Node::Count { child: _ } => {
            let mut out = Vec::new(alloc);
            out.push(Label::Public)?;
            Ok(out)
        }
        Node::Distinct { child } => labels_of(alloc, schema, child.get()),
        Node::Number {
            child,
            partition,
            order,
        } => {
            let mut out = labels_of(alloc, schema, child.get())?;
            let by_partition = highest_at(out.as_slice(), partition.as_slice());
            let by_order = highest_key(out.as_slice(), order.as_slice());
            out.push(higher(by_partition, by_order))?;
            Ok(out)
        }
        Node::Top {
            child,
            order: _,
            limit: _,
        } => labels_of(alloc, schema, child.get()),
    }
}
