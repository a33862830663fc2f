//! Equal rows as one, counted or not, in whole lists and in lists of one value.
ghost use Rattle.std.specs.Prelude.{◌≡◌, length};
ghost use Rattle.pdn_obl_rows.specs.Operators.{IsThere};

use crate::lists::{Placed, numbers_list, told, words_with};
use pdn_base::Value;
use pdn_circuit::{BuildErr, Builder};
use pdn_obl_group::{count, cut_distinct, cut_group, distinct, group};
use pdn_obl_rows::Padded;
use std::alloc::Global;
use std::test::Fail;

/// An operator over a list of one column, with its value and its least count.
#[derive(Clone, Copy, Debug)]
enum Operator {
    Distinct,
    Count,
    Group(Option<u32>),
    /// By its column, named twice.
    GroupTwice,
    CutDistinct(u32),
    CutGroup(u32, Option<u32>),
}

fn made(
    alloc: Global,
    b: &mut Builder,
    list: &Padded,
    operator: Operator,
) -> Result<Padded, BuildErr>
    requires there { IsThere b.old list.now }
    requires kinds { length list.now.kinds ≡ 1 }
{
    match operator {
        Operator::Distinct => distinct(alloc, b, list),
        Operator::Count => count(alloc, b, list),
        Operator::Group(having) => group(alloc, b, list, &[0], having),
        Operator::GroupTwice => group(alloc, b, list, &[0, 0], None),
        Operator::CutDistinct(value) => cut_distinct(alloc, b, list, &Value::Int(value)),
        Operator::CutGroup(value, having) => {
            cut_group(alloc, b, list, &[0], &Value::Int(value), having)
        }
    }
}

/// What an operator makes of a list of which these rows are there, in so many And gates; the others hold rubbish.
fn answer(
    alloc: Global,
    operator: Operator,
    ands: u32,
    len: u32,
    rubbish: u32,
    rows: &[Placed],
) -> Result<String, Fail> {
    let mut b = Builder::new(alloc, ands, 200_000)?;
    let list = numbers_list(alloc, &mut b, len)?;
    let out = made(alloc, &mut b, &list, operator);
    told(alloc, b, out, words_with(alloc, len, 1, rubbish, rows)?)
}

/// An operator, its And gates over three rows of a number, and what it gives of the rows 9, 4 and 9 in them.
const WITHIN: &[(Operator, u32, &str)] = &[
    (Operator::Distinct, 100, " 9; 4;"),
    (Operator::Count, 3, " 3;"),
    (Operator::CutDistinct(9), 3, " 9;"),
    (Operator::Group(None), 103, " 9 2; 4 1;"),
    (Operator::GroupTwice, 103, " 9 9 2; 4 4 1;"),
    (Operator::Group(Some(3)), 136, ""),
];

#[test]
fn an_operator_over_three_rows_makes_so_many_and_gates(rt: HostRuntime) -> Result<(), Fail> {
    let alloc = rt.alloc();
    let rows = [(0, 9, 0), (1, 4, 0), (2, 9, 0)];
    for (operator, ands, wanted) in WITHIN {
        let within = answer(alloc, *operator, *ands, 3, 0, &rows)?;
        assert_eq!(rt; within.as_str(), *wanted, "{ands}");
        let past = answer(alloc, *operator, ands.saturating_sub(1), 3, 0, &rows)?;
        assert_eq!(rt; past.as_str(), "limit 2", "{ands}");
    }
    Ok(())
}

/// An operator, the length of a list, its rubbish and the rows of it that are there, and what the operator gives.
const ANSWERS: &[(Operator, u32, u32, &[Placed], &str)] = &[
    (Operator::Distinct, 3, 9, &[(1, 4, 0), (2, 9, 0)], " 4; 9;"),
    (Operator::Distinct, 3, 9, &[], ""),
    (Operator::Distinct, 128, 5, TWO, " 5; 9; 7;"),
    (Operator::Distinct, 65, u32::MAX, MORE, " 5; 7;"),
    (Operator::Count, 3, 4, &[(0, 9, 0), (2, 9, 0)], " 2;"),
    (Operator::Count, 3, 9, &[], " 0;"),
    (Operator::CutDistinct(9), 3, 9, &[], ""),
    (Operator::CutGroup(7, None), 3, 7, &[], ""),
    (Operator::CutGroup(7, Some(0)), 3, 7, SEVENS, " 7 3;"),
    (Operator::CutGroup(7, Some(3)), 3, 7, SEVENS, " 7 3;"),
    (Operator::CutGroup(7, Some(4)), 3, 7, SEVENS, ""),
    (Operator::Group(None), 128, 5, TWO, " 5 2; 9 2; 7 1;"),
    (Operator::Group(Some(0)), 65, 5, MORE, " 5 2; 7 1;"),
    (Operator::Group(Some(2)), 65, u32::MAX, MORE, " 5 2;"),
    (Operator::Group(Some(3)), 65, 5, MORE, ""),
];

const SEVENS: &[Placed] = &[(0, 7, 0), (1, 7, 0), (2, 7, 0)];

const MORE: &[Placed] = &[(1, 5, 0), (62, 7, 0), (64, 5, 0)];

const TWO: &[Placed] = &[(2, 5, 0), (63, 9, 0), (64, 9, 0), (66, 5, 0), (127, 7, 0)];

#[test]
fn equal_rows_are_one_where_they_occur_first_and_rubbish_is_none(
    rt: HostRuntime,
) -> Result<(), Fail> {
    let alloc = rt.alloc();
    for (operator, len, rubbish, rows, wanted) in ANSWERS {
        let found = answer(alloc, *operator, 100_000, *len, *rubbish, rows)?;
        assert_eq!(rt; found.as_str(), *wanted, "{operator:?} {len}");
    }
    Ok(())
}
