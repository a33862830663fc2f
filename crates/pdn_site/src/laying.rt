//! The lists of a unit as gates of a builder.
ghost use Rattle.std.specs.Prelude.{◌≡◌, ◌+◌, ◌*◌, ◌<◌, ◌≤◌, ◌^◌, ℕ, length, IfErr, IfOk, IfSome};
ghost use Rattle.std.specs.List.{range_with_len};
ghost use Rattle.pdn_circuit.specs.declared.gate.Gate.TheVariants.{Given, Input};
ghost use Rattle.pdn_circuit.specs.declared.tally.BuildErr.TheVariants.{Memory};
ghost use Rattle.pdn_circuit.specs.Gates.{given_count, input_count};
ghost use Rattle.pdn_circuit.specs.Building.{Tries};
ghost use Rattle.pdn_tree.specs.Shapes.{kinds};
ghost use Rattle.pdn_obl_rows.specs.Lists.{widths, words_for};
ghost use Rattle.pdn_obl_rows.specs.Encoding.{list_from, planes_from};
ghost use Rattle.pdn_obl_rows.specs.Operators.{GivesList, IsThere};
ghost use Rattle.pdn_site.specs.Laying.{given_list, input_list, list_words};
ghost use Rattle.pdn_site.specs.Built.{IsListOf, Lays, words_gates};
ghost use Rattle.pdn_site.specs.Circuits.{leaf_list};

use crate::entering::kinds_of;
use crate::fits::leaf_fits;
use pdn_base::{Kind, Site};
use pdn_circuit::{BuildErr, Builder};
use pdn_obl_rows::{Padded, Plane, append, width, words_for};
use pdn_schema::Schema;
use pdn_tree::Node;
use std::alloc::{AllocError, Global};

/// The next `count` words of a site; the gate of the first.
fn take_inputs(b: &mut Builder, site: Site, count: usize) -> Result<u32, BuildErr>
    ensures made { Tries b.old b.new (words_gates (Input site) (input_count site b.old.gates) count)
        result }
    ensures few { IfOk result (λ _. length b.new.gates ≤ 16777216) }
{
    let first = b.len();
    for _ in 0..count {
        b.input(site)?;
    }
    let _gates = b.len();
    Ok(first)
}

/// The next `count` given words; the gate of the first.
fn take_given(b: &mut Builder, count: usize) -> Result<u32, BuildErr>
    ensures made { Tries b.old b.new (words_gates Given (given_count b.old.gates) count) result }
    ensures few { IfOk result (λ _. length b.new.gates ≤ 16777216) }
{
    let first = b.len();
    for _ in 0..count {
        b.given()?;
    }
    let _gates = b.len();
    Ok(first)
}

/// The planes of columns of these kinds, where there are not too many to count.
pub fn widths(kinds: &[Kind]) -> Option<usize>
    ensures { IfSome result (λ planes. planes ≡ widths kinds.now) }
{
    match kinds.split_first() {
        None => Some(0),
        Some((kind, rest)) => {
            let Some(planes) = widths(rest) else {
                return None;
            };
            planes.checked_add(width(*kind) as usize)
        }
    }
}

/// The words of a list: of its valid plane and of its columns' planes.
fn list_words(planes: usize, len: u32) -> Option<usize>
    ensures { IfSome result (λ count. count ≡ (planes + 1) * words_for len) }
{
    match planes.checked_add(1) {
        None => None,
        Some(all) => all.checked_mul(words_for(len)),
    }
}

fn plane_from(alloc: Global, first: u32, words: usize) -> Result<Vec<u32>, AllocError>
    requires { first + words < 2 ^ 32 }
    ensures { IfOk result (λ gates. gates.items ≡ range_with_len first words) }
{
    let mut gates = Vec::new(alloc);
    for k in 0..words {
        gates.push(first + k as u32)?;
    }
    Ok(gates)
}

fn planes_from(
    alloc: Global,
    first: u32,
    words: usize,
    count: usize,
) -> Result<Vec<Plane>, AllocError>
    requires { first + count * words < 2 ^ 32 }
    ensures { IfOk result (λ planes. planes.items ≡ planes_from first words count) }
{
    let mut planes = Vec::new(alloc);
    for k in 0..count {
        let gate = first + (k * words) as u32;
        let words = plane_from(alloc, gate, words)?;
        planes.push(Plane { words })?;
    }
    Ok(planes)
}

/// The list whose words are the gates from one on.
pub fn list_from(
    alloc: Global,
    first: u32,
    kinds: &[Kind],
    planes: usize,
    len: u32,
) -> Result<Padded, AllocError>
    requires planes { planes ≡ widths kinds.now }
    requires few { first + list_words kinds.now len < 2 ^ 32 }
    ensures gives { IfOk result (λ list. list ≡ list_from first kinds.now len) }
    ensures is { IfOk result (IsListOf kinds.now len) }
{
    let words = words_for(len);
    let valid = plane_from(alloc, first, words)?;
    let planes = planes_from(alloc, first + words as u32, words, planes)?;
    let kinds = Vec::from_slice(alloc, kinds)?;
    Ok(Padded::of(len, valid, kinds, planes))
}

/// A list whose rows are the next words of a site.
pub fn input_list(
    alloc: Global,
    b: &mut Builder,
    site: Site,
    kinds: &[Kind],
    len: u32,
) -> Result<Padded, BuildErr>
    ensures made { (s : ℕ) → Lays b.old b.new s s (input_list site kinds.now len) result }
    ensures there { GivesList b.new result }
    ensures is { IfOk result (IsListOf kinds.now len) }
{
    let Some(planes) = widths(kinds) else {
        // the count of planes passes its type
        return Err(BuildErr::Memory);
    };
    let Some(count) = list_words(planes, len) else {
        // the count of words passes its type
        return Err(BuildErr::Memory);
    };
    let first = take_inputs(b, site, count)?;
    Ok(list_from(alloc, first, kinds, planes, len)?)
}

/// A list whose rows are the next given words.
pub fn given_list(
    alloc: Global,
    b: &mut Builder,
    kinds: &[Kind],
    len: u32,
) -> Result<Padded, BuildErr>
    ensures made { (s : ℕ) → Lays b.old b.new s s (given_list kinds.now len) result }
    ensures there { GivesList b.new result }
    ensures is { IfOk result (IsListOf kinds.now len) }
{
    let Some(planes) = widths(kinds) else {
        // the count of planes passes its type
        return Err(BuildErr::Memory);
    };
    let Some(count) = list_words(planes, len) else {
        // the count of words passes its type
        return Err(BuildErr::Memory);
    };
    let first = take_given(b, count)?;
    Ok(list_from(alloc, first, kinds, planes, len)?)
}

/// A leaf: A's rows and then B's.
pub fn leaf_list(
    alloc: Global,
    b: &mut Builder,
    kinds: &[Kind],
    len: u32,
) -> Result<Padded, BuildErr>
    requires { 2 * len ≤ 4096 }
    ensures made { (s : ℕ) → Lays b.old b.new s s (leaf_list kinds.now len) result }
    ensures there { GivesList b.new result }
{
    let own = input_list(alloc, b, Site::A, kinds, len)?;
    let other = input_list(alloc, b, Site::B, kinds, len)?;
    let lists = vec![in alloc; own, other]?;
    append(alloc, b, lists.as_slice())
}

/// The kinds of a tree's columns.
pub fn kinds_at(alloc: Global, schema: &Schema, node: &Node) -> Result<Vec<Kind>, BuildErr>
    ensures kinds { IfOk result (λ out. out.items ≡ kinds schema.now node.now) }
    ensures memory { IfErr result (λ err. err ≡ Memory) }
{
    match kinds_of(alloc, schema, node) {
        Ok(kinds) => Ok(kinds),
        // a growth was refused
        Err(_) => Err(BuildErr::Memory),
    }
}

/// The leaf of a Local tree, of which each site has so many rows.
#[tactic(auto, using(crate::proofs::BuiltLaws::not_laid))]
pub fn local_leaf(
    alloc: Global,
    b: &mut Builder,
    schema: &Schema,
    node: &Node,
    rows: u32,
) -> Result<Padded, BuildErr>
    ensures made { (s : ℕ) → Lays b.old b.new s s
        (leaf_list (kinds schema.now node.now) rows) result }
    ensures there { GivesList b.new result }
{
    leaf_fits(rows)?;
    let kinds = kinds_at(alloc, schema, node)?;
    leaf_list(alloc, b, kinds.as_slice(), rows)
}
