//! The columns that are compared: those of a list, and its descending ones inverted.
ghost use Rattle.std.specs.Prelude.{◌≡◌, ◌<◌, ◌+◌, ◌^◌, ◌++◌, length, map, IfOk, OnOk, MatchResult};
ghost use Rattle.std.specs.List.{All, range_with_len};
ghost use Rattle.pdn_circuit.specs.Blocks.{each};
ghost use Rattle.pdn_circuit.specs.Building.{Tries, Stops};
ghost use Rattle.pdn_obl_rows.specs.Lists.{column_planes};
ghost use Rattle.pdn_obl_rows.specs.Operators.{IsThere};
ghost use Rattle.pdn_obl_rank.specs.Keys.{KeysFit, own_columns, inverted_gates, compared_gates};
ghost use Rattle.pdn_obl_rank.specs.Building.{TriesItems, PlanesThere, ColumnsThere, Compares};

use crate::column::{Column, words_of};
use crate::hits::Compared;
use crate::inverting::invert_column;
use crate::keys::{down_columns, places, sort_key};
use pdn_base::Key;
use pdn_circuit::{BuildErr, Builder};
use pdn_obl_rows::{Padded, Plane};
use std::alloc::{AllocError, Global};

pub fn copy_plane(alloc: Global, plane: &[u32]) -> Result<Plane, AllocError>
    ensures { IfOk result (λ copy. copy ≡ plane.now) }
{
    Ok(Plane {
        words: Vec::from_slice(alloc, plane)?,
    })
}

fn copy_column(alloc: Global, planes: &[Plane]) -> Result<Column, AllocError>
    ensures { IfOk result (λ copy. copy ≡ planes.now) }
{
    let mut copies = Vec::new(alloc);
    for k in 0..planes.len() {
        copies.push(copy_plane(alloc, words_of(&planes[k]))?)?;
    }
    Ok(Column { planes: copies })
}

fn own_columns(alloc: Global, list: &Padded) -> Result<Vec<Column>, AllocError>
    ensures { IfOk result (λ columns. columns.items ≡ own_columns list.now) }
{
    let mut columns = Vec::new(alloc);
    for column in 0..list.kinds().len() {
        columns.push(copy_column(alloc, list.column(column))?)?;
    }
    Ok(columns)
}

fn inverted_at(
    alloc: Global,
    b: &mut Builder,
    list: &Padded,
    column: u32,
) -> Result<Column, BuildErr>
    requires there { IsThere b.old list.now }
    requires column { column < length list.now.kinds }
    ensures made { Tries b.old b.new (inverted_gates list.now column) result }
    ensures there { IfOk result (λ column. PlanesThere (length b.new.gates) column) }
{
    invert_column(alloc, b, list.column(column as usize))
}

fn inverted_columns(
    alloc: Global,
    b: &mut Builder,
    list: &Padded,
    downs: &[u32],
) -> Result<Vec<Column>, BuildErr>
    requires there { IsThere b.old list.now }
    requires downs { All (λ column. column < length list.now.kinds) downs.now }
    ensures made { TriesItems b.old b.new (each (inverted_gates list.now) downs.now) result }
    ensures there { IfOk result (λ columns. ColumnsThere (length b.new.gates) columns.items) }
{
    let mut inverted = Vec::new(alloc);
    for k in 0..downs.len() {
        let column = inverted_at(alloc, b, list, downs[k])?;
        inverted.push(column)?;
    }
    Ok(inverted)
}

fn push_columns(columns: &mut Vec<Column>, more: &[Column]) -> Result<(), AllocError>
    ensures { OnOk result (columns.new.items ≡ columns.old.items ++ more.now) }
{
    for column in more {
        columns.push(copy_column(*columns.allocator(), column.planes.as_slice())?)?;
    }
    Ok(())
}

/// What is numbered: the columns, those that descend inverted, and the places of the partition and of the sort key.
pub fn compare(
    alloc: Global,
    b: &mut Builder,
    list: &Padded,
    len: u32,
    partition: &[u32],
    order: &[Key],
) -> Result<Compared, BuildErr>
    requires len { len ≡ list.now.len }
    requires there { IsThere b.old list.now }
    requires fits { KeysFit (length list.now.kinds) partition.now order.now }
    requires few { length list.now.kinds + length order.now < 2 ^ 32 }
    ensures made { MatchResult result (Compares b.old b.new list.now partition.now order.now)
        (Stops b.old b.new (compared_gates list.now order.now (length b.old.gates))) }
{
    let count = list.kinds().len() as u32;
    let downs = down_columns(alloc, order)?;
    let keys = sort_key(alloc, order, count)?;
    let key = places(alloc, order, downs.as_slice(), keys.as_slice(), count)?;
    let mut columns = own_columns(alloc, list)?;
    let valid = Vec::from_slice(alloc, list.valid())?;
    let partition = Vec::from_slice(alloc, partition)?;
    let inverted = inverted_columns(alloc, b, list, downs.as_slice())?;
    push_columns(&mut columns, inverted.as_slice())?;
    Ok(Compared {
        valid,
        columns,
        partition,
        key,
    })
}
