//! The sort key of an order, and the places of its columns among those that are compared.
ghost use Rattle.std.specs.Prelude.{◌≡◌, ◌<◌, ◌≤◌, ◌+◌, ◌^◌, length, map, cond, nat_eq, not, ◌&&◌, ◌++◌, IfOk, OnOk};
ghost use Rattle.std.specs.List.{list_any};
ghost use Rattle.pdn_obl_rank.specs.Keys.{ascending, is_named, one_if, sort_key, down_columns, place_among, place_of_key};

use crate::spreading::is_used;
use pdn_base::Key;
use std::alloc::{AllocError, Global};

fn is_named(order: &[Key], column: u32) -> bool
    ensures { result ≡ is_named order.now column }
{
    order.iter().any(|key| key.column == column)
}

/// The order columns, and then the remaining columns from left to right.
pub fn sort_key(alloc: Global, order: &[Key], columns: u32) -> Result<Vec<Key>, AllocError>
    ensures { IfOk result (λ keys. keys.items ≡ sort_key order.now columns) }
{
    let mut keys = Vec::from_slice(alloc, order)?;
    for column in 0..columns {
        push_remaining(&mut keys, order, column)?;
    }
    Ok(keys)
}

/// A column that the order does not name.
fn push_remaining(keys: &mut Vec<Key>, order: &[Key], column: u32) -> Result<(), AllocError>
    ensures { OnOk result (keys.new.items ≡ keys.old.items
        ++ map ascending (one_if (not (is_named order.now column)) column)) }
{
    if !is_named(order, column) {
        keys.push(Key {
            column,
            down: false,
        })?;
    }
    Ok(())
}

/// The descending columns of an order, each once.
pub fn down_columns(alloc: Global, order: &[Key]) -> Result<Vec<u32>, AllocError>
    ensures { IfOk result (λ downs. downs.items ≡ down_columns order.now) }
{
    let mut downs = Vec::new(alloc);
    for k in 0..order.len() {
        push_down(&mut downs, &order[k])?;
    }
    Ok(downs)
}

/// A key's column, where it descends and is new.
fn push_down(downs: &mut Vec<u32>, key: &Key) -> Result<(), AllocError>
    ensures { OnOk result (downs.new.items ≡ downs.old.items
        ++ one_if (key.now.down && not
        (list_any (nat_eq key.now.column) downs.old.items)) key.now.column) }
{
    if key.down && !is_used(downs.as_slice(), key.column) {
        downs.push(key.column)?;
    }
    Ok(())
}

fn place_among(column: u32, downs: &[u32]) -> usize
    ensures place { result ≡ place_among column downs.now }
    ensures most { result ≤ length downs.now }
{
    let mut place = 0;
    for down in downs {
        if *down == column {
            return place;
        }
        place += 1;
    }
    place
}

/// The places of keys' columns among those that are compared.
pub fn places(
    alloc: Global,
    order: &[Key],
    downs: &[u32],
    keys: &[Key],
    columns: u32,
) -> Result<Vec<u32>, AllocError>
    requires downs { downs.now ≡ down_columns order.now }
    requires few { columns + length downs.now < 2 ^ 32 }
    ensures { IfOk result (λ places. places.items ≡ map (place_of_key columns order.now) keys.now) }
{
    let mut places = Vec::new(alloc);
    for k in 0..keys.len() {
        places.push(place_of(downs, &keys[k], columns))?;
    }
    Ok(places)
}

fn place_of(downs: &[u32], key: &Key, columns: u32) -> u32
    requires few { columns + length downs.now < 2 ^ 32 }
    ensures { result ≡ cond key.now.down (columns + place_among key.now.column downs.now)
        key.now.column }
{
    if key.down {
        columns + place_among(key.column, downs) as u32
    } else {
        key.column
    }
}
