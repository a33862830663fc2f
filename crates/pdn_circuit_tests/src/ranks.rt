//! Rows numbered in an order, and the first rows of an order.
ghost use Rattle.std.specs.Prelude.{◌≡◌, ◌≤◌, [], length};
ghost use Rattle.pdn_obl_rank.specs.Keys.{KeysFit};

use crate::lists::{Placed, numbers_list, pairs_list, told, words_with};
use pdn_base::Key;
use pdn_circuit::Builder;
use pdn_obl_rank::{number, top};
use std::alloc::Global;
use std::test::Fail;

/// A column by which rows are ordered.
fn key(column: u32, down: bool) -> Key
    ensures { result ≡ record { column = column; down = down } }
{
    Key { column, down }
}

/// The rows 9, 4 and 9 with their places by number, in so many And gates.
fn places(alloc: Global, ands: u32) -> Result<String, Fail> {
    let mut b = Builder::new(alloc, ands, 100_000)?;
    let list = numbers_list(alloc, &mut b, 3)?;
    let out = number(alloc, &mut b, &list, &[], &[key(0, false)]);
    told(alloc, b, out, words_with(alloc, 3, 1, 0, NINES)?)
}

/// The first of the rows 9, 4 and 9 by number, in so many And gates.
fn firsts(alloc: Global, ands: u32, limit: Option<u32>) -> Result<String, Fail> {
    let mut b = Builder::new(alloc, ands, 100_000)?;
    let list = numbers_list(alloc, &mut b, 3)?;
    let out = top(alloc, &mut b, &list, &[key(0, false)], limit);
    told(alloc, b, out, words_with(alloc, 3, 1, 0, NINES)?)
}

const NINES: &[Placed] = &[(0, 9, 0), (1, 4, 0), (2, 9, 0)];

#[test]
fn three_rows_of_a_number_are_ordered_in_so_many_and_gates(rt: HostRuntime) -> Result<(), Fail> {
    let alloc = rt.alloc();
    for (ands, wanted) in [(105, " 9 2; 4 1; 9 3;"), (104, "limit 2")] {
        assert_eq!(rt; places(alloc, ands)?.as_str(), wanted, "{ands}");
    }
    for (ands, limit, wanted) in [
        (32, None, " 9; 4; 9;"),
        (31, None, "limit 2"),
        (32, Some(3), " 9; 4; 9;"),
        (170, Some(2), " 9; 4;"),
        (169, Some(2), "limit 2"),
    ] {
        assert_eq!(rt; firsts(alloc, ands, limit)?.as_str(), wanted, "{ands}");
    }
    Ok(())
}

/// Those of 65 rows of two numbers that are there, with their places.
fn numbered(
    alloc: Global,
    rows: &[Placed],
    partition: &[u32],
    order: &[Key],
) -> Result<String, Fail>
    requires fits { KeysFit 2 partition.now order.now }
    requires few { length order.now ≤ 2 }
{
    let mut b = Builder::new(alloc, 100_000, 400_000)?;
    let list = pairs_list(alloc, &mut b, 65)?;
    let out = number(alloc, &mut b, &list, partition, order);
    told(alloc, b, out, words_with(alloc, 65, 2, u32::MAX, rows)?)
}

/// The first of 65 rows of two numbers, as many as the limit, where these are there.
fn first_rows(alloc: Global, rows: &[Placed], order: &[Key], limit: u32) -> Result<String, Fail>
    requires fits { KeysFit 2 [] order.now }
    requires few { length order.now ≤ 2 }
{
    let mut b = Builder::new(alloc, 100_000, 400_000)?;
    let list = pairs_list(alloc, &mut b, 65)?;
    let out = top(alloc, &mut b, &list, order, Some(limit));
    told(alloc, b, out, words_with(alloc, 65, 2, u32::MAX, rows)?)
}

const ROWS: &[Placed] = &[(0, 5, 9), (1, 8, 2), (62, 5, 3), (63, 8, 1), (64, 8, 2)];

#[test]
fn rows_of_two_words_are_ordered_by_two_columns_and_ties_by_place(
    rt: HostRuntime,
) -> Result<(), Fail> {
    let alloc = rt.alloc();
    let down_up = numbered(alloc, ROWS, &[], &[key(0, true), key(1, false)])?;
    assert_eq!(rt; down_up.as_str(), " 5 9 5; 8 2 2; 5 3 4; 8 1 1; 8 2 3;");
    let by_first = numbered(alloc, ROWS, &[0], &[key(1, true)])?;
    assert_eq!(rt; by_first.as_str(), " 5 9 1; 8 2 1; 5 3 2; 8 1 3; 8 2 2;");
    let three = first_rows(alloc, ROWS, &[key(0, true), key(1, false)], 3)?;
    assert_eq!(rt; three.as_str(), " 8 2; 8 1; 8 2;");
    Ok(())
}
