//! Rows numbered in their order.
ghost use Rattle.std.specs.Prelude.{◌≡◌, ◌<◌, ◌+◌, ◌^◌, ◌++◌, ◌∷◌, [], length, map, replicate, slice_index, IfOk, IfErr, OnOk};
ghost use Rattle.pdn_base.specs.declared.marks.Kind.TheVariants as kind;
ghost use Rattle.std.specs.List.{range_with_len};
ghost use Rattle.pdn_circuit.specs.declared.tally.BuildErr.TheVariants as BuildErr;
ghost use Rattle.pdn_circuit.specs.Building.{Tries};
ghost use Rattle.pdn_obl_rows.specs.Lists.{words_for};
ghost use Rattle.pdn_obl_rows.specs.Operators.{IsThere, GivesList};
ghost use Rattle.pdn_obl_group.specs.Loops.{no_count, count_planes, counts_column};
ghost use Rattle.pdn_obl_rank.specs.Keys.{KeysFit};
ghost use Rattle.pdn_obl_rank.specs.Numbers.{with_counts, number_gates};

use crate::column::{Number, bits_of, words_of};
use crate::comparing::{compare, copy_plane};
use crate::counting::count_rows;
use pdn_base::{Key, Kind};
use pdn_circuit::{BuildErr, Builder};
use pdn_obl_group::{count_planes, no_count};
use pdn_obl_rows::{Padded, Plane};
use std::alloc::Global;

/// A counter that holds 0 for each word.
fn no_counts(alloc: Global, words: usize, len: u32) -> Result<Vec<Number>, BuildErr>
    ensures memory { IfErr result (λ err. err ≡ BuildErr.Memory) }
    ensures zero { IfOk result (λ counters. counters.items ≡ replicate words (no_count len)) }
{
    let mut counters = Vec::new(alloc);
    for k in 0..words {
        let _k = k;
        counters.push(Number {
            bits: no_count(alloc, len)?,
        })?;
    }
    Ok(counters)
}

/// The counters as ints.
fn ints(alloc: Global, counters: &[Number]) -> Result<Vec<Number>, BuildErr>
    ensures gives { IfOk result (λ ints. ints.items ≡ map count_planes counters.now) }
    ensures memory { IfErr result (λ err. err ≡ BuildErr.Memory) }
{
    let mut ints = Vec::new(alloc);
    for k in 0..counters.len() {
        ints.push(Number {
            bits: count_planes(alloc, bits_of(&counters[k]))?,
        })?;
    }
    Ok(ints)
}

/// One plane of a column: a bit of each word's number.
fn count_plane(alloc: Global, ints: &[Number], bit: usize) -> Result<Plane, BuildErr>
    ensures gives { IfOk result (λ plane. plane ≡ map (λ number. slice_index number bit) ints.now) }
    ensures memory { IfErr result (λ err. err ≡ BuildErr.Memory) }
{
    let mut words = Vec::new(alloc);
    for k in 0..ints.len() {
        words.push(bit_of(bits_of(&ints[k]), bit))?;
    }
    Ok(Plane { words })
}

fn bit_of(bits: &[u32], bit: usize) -> u32
    ensures { result ≡ slice_index bits.now bit }
{
    if bit < bits.len() { bits[bit] } else { 0 }
}

/// The planes of a column of counts.
fn count_column(alloc: Global, ints: &[Number], bits: usize) -> Result<Vec<Plane>, BuildErr>
    ensures gives { IfOk result (λ planes. planes.items
        ≡ map (λ bit. map (λ number. slice_index number bit) ints.now) (range_with_len 0 bits)) }
    ensures memory { IfErr result (λ err. err ≡ BuildErr.Memory) }
{
    let mut planes = Vec::new(alloc);
    for bit in 0..bits {
        planes.push(count_plane(alloc, ints, bit)?)?;
    }
    Ok(planes)
}

/// The planes of a list and those of a column.
fn all_planes(alloc: Global, planes: &[Plane], more: &[Plane]) -> Result<Vec<Plane>, BuildErr>
    ensures gives { IfOk result (λ all. all.items ≡ planes.now ++ more.now) }
    ensures memory { IfErr result (λ err. err ≡ BuildErr.Memory) }
{
    let mut all = Vec::new(alloc);
    push_planes(alloc, &mut all, planes)?;
    push_planes(alloc, &mut all, more)?;
    Ok(all)
}

fn push_planes(alloc: Global, planes: &mut Vec<Plane>, more: &[Plane]) -> Result<(), BuildErr>
    ensures gives { OnOk result (planes.new.items ≡ planes.old.items ++ more.now) }
    ensures memory { IfErr result (λ err. err ≡ BuildErr.Memory) }
{
    for plane in more {
        planes.push(copy_plane(alloc, words_of(plane))?)?;
    }
    Ok(())
}

fn int_last(alloc: Global, kinds: &[Kind]) -> Result<Vec<Kind>, BuildErr>
    ensures gives { IfOk result (λ all. all.items ≡ kinds.now ++ kind.Int ∷ []) }
    ensures memory { IfErr result (λ err. err ≡ BuildErr.Memory) }
{
    let mut all = Vec::from_slice(alloc, kinds)?;
    all.push(Kind::Int)?;
    Ok(all)
}

/// The list with a column of counts.
fn with_counts(alloc: Global, list: &Padded, counters: &[Number]) -> Result<Padded, BuildErr>
    requires { length counters.now ≡ words_for list.now.len }
    ensures gives { IfOk result (λ out. out ≡ with_counts list.now counters.now) }
    ensures memory { IfErr result (λ err. err ≡ BuildErr.Memory) }
{
    let ints = ints(alloc, counters)?;
    let column = count_column(alloc, ints.as_slice(), 32)?;
    let planes = all_planes(alloc, list.planes(), column.as_slice())?;
    let kinds = int_last(alloc, list.kinds())?;
    let valid = Vec::from_slice(alloc, list.valid())?;
    Ok(Padded::of(list.len, valid, kinds, planes))
}

/// The list with each row's place as a new last column: 1, and the valid rows of its partition that come before it in the
/// order; among equal rows the earlier in the list comes before. Columns are those of the list.
pub fn number(
    alloc: Global,
    b: &mut Builder,
    list: &Padded,
    partition: &[u32],
    order: &[Key],
) -> Result<Padded, BuildErr>
    requires there { IsThere b.old list.now }
    requires fits { KeysFit (length list.now.kinds) partition.now order.now }
    requires few { length list.now.kinds + length order.now < 2 ^ 32 }
    ensures made { Tries b.old b.new (number_gates list.now partition.now order.now) result }
    ensures there { GivesList b.new result }
{
    let none = no_counts(alloc, list.valid().len(), list.len)?;
    let compared = compare(alloc, b, list, list.len, partition, order)?;
    let _gates = b.len();
    let counters = count_rows(alloc, b, &compared, list.len, none)?;
    with_counts(alloc, list, counters.as_slice())
}
