//! Rows as words and back, and lists filtered, joined, appended and cut to columns.
ghost use Rattle.std.specs.Prelude.{◌≡◌, ◌<◌, ◌≤◌, ◌*◌, ◌∷◌, [], length, sum, IfOk};
ghost use Rattle.pdn_base.specs.declared.marks.Kind.TheVariants as kind;
ghost use Rattle.pdn_obl_rows.specs.Encoding.{RowsAreOf};
ghost use Rattle.pdn_obl_rows.specs.Operators.{AllOf, AllThere, length_of};

use crate::lists::{Placed, numbers_list, pairs_list, text_of, told, words_of, words_with};
use pdn_base::{Clause, Cmp, Cond, Kind, Op, Operand, Row, Rows, Term, Value, Word};
use pdn_circuit::Builder;
use pdn_obl_rows::{Padded, append, decode, encode, filter, join, project, width};
use std::alloc::Global;
use std::test::Fail;

/// Rows of one number each.
fn rows_of(alloc: Global, numbers: &[u32]) -> Result<Rows, Fail>
    ensures kinds { IfOk result (λ rows. RowsAreOf (kind.Int ∷ []) rows) }
    ensures count { IfOk result (λ rows. length rows ≡ length numbers.now) }
{
    let mut rows = Vec::new(alloc);
    for k in 0..numbers.len() {
        let mut values = Vec::new(alloc);
        values.push(Value::Int(numbers[k]))?;
        rows.push(Row::new(values))?;
    }
    Ok(Rows { rows })
}

#[test]
fn rows_five_and_seven_in_three_are_these_words(rt: HostRuntime) -> Result<(), Fail> {
    let alloc = rt.alloc();
    let rows = rows_of(alloc, &[5, 7])?;
    let words = encode(alloc, &rows, &[Kind::Int], 3)?;
    let again = decode(alloc, &words, &[Kind::Int], 3)?;
    assert!(rt; again.as_slice() == rows.as_slice());
    assert!(rt; words.len() == 33);
    for (word, wanted) in words.iter().zip([3, 3, 2, 3]) {
        assert_eq!(rt; word.to_u64(), wanted);
    }
    assert!(rt; words[4..].iter().all(|word| word.to_u64() == 0));
    assert_eq!(rt; (width(Kind::Int), width(Kind::Code)), (32, 64));
    Ok(())
}

/// A column, and what is added to it.
fn column(column: u32, plus: Option<u32>) -> Term
    ensures { result ≡ record { column = column; plus = plus } }
{
    Term { column, plus }
}

fn only(alloc: Global, cmp: Cmp) -> Result<Cond, Fail>
    ensures { IfOk result (λ cond. cond ≡ (cmp ∷ []) ∷ []) }
{
    Ok(Cond {
        all: vec![in alloc;
            Clause {
                any: vec![in alloc; cmp]?
            },
        ]?,
    })
}

/// Four rows of a number.
const FOUR: &[Placed] = &[(0, 0, 0), (1, 7, 0), (2, 10, 0), (3, u32::MAX, 0)];

/// Which of four numbers, with this added, stand to the other as the sign says.
fn kept(alloc: Global, plus: Option<u32>, op: Op, right: u32) -> Result<String, Fail> {
    let cond = only(
        alloc,
        Cmp {
            left: column(0, plus),
            op,
            right: Operand::Int(right),
        },
    )?;
    let mut b = Builder::new(alloc, 1000, 10_000)?;
    let list = numbers_list(alloc, &mut b, 4)?;
    let out = filter(alloc, &mut b, &list, &cond)?;
    let words = words_of(alloc, b, words_with(alloc, 4, 1, 0, FOUR)?)?;
    text_of(alloc, &words, &out)
}

#[test]
fn a_filter_keeps_the_rows_that_meet_its_comparison(rt: HostRuntime) -> Result<(), Fail> {
    let alloc = rt.alloc();
    let most = u32::MAX;
    for (plus, op, right, wanted) in [
        (None, Op::Eq, most, " 4294967295;"),
        (None, Op::Ne, 0, " 7; 10; 4294967295;"),
        (None, Op::Lt, most, " 0; 7; 10;"),
        (None, Op::Le, 0, " 0;"),
        (None, Op::Gt, 0, " 7; 10; 4294967295;"),
        (None, Op::Ge, most, " 4294967295;"),
        // 4294967295 + 8 is more than 32 bits hold
        (Some(8), Op::Gt, 18, " 4294967295;"),
    ] {
        assert_eq!(rt; kept(alloc, plus, op, right)?.as_str(), wanted);
    }
    Ok(())
}

/// Lists of numbers, as long as these say.
fn number_lists(alloc: Global, b: &mut Builder, lens: &[u32]) -> Result<Vec<Padded>, Fail>
    ensures same { IfOk result (λ lists. AllOf (kind.Int ∷ []) lists.items) }
    ensures there { IfOk result (λ lists. AllThere b.new lists.items) }
    ensures count { IfOk result (λ lists. length lists.items ≡ length lens.now) }
    ensures rows { IfOk result (λ lists. length_of lists.items ≡ sum lens.now) }
{
    let mut lists = Vec::new(alloc);
    for k in 0..lens.len() {
        let list = numbers_list(alloc, b, lens[k])?;
        lists.push(list)?;
    }
    Ok(lists)
}

/// The rows of lists, one list after the other, or of one list alone.
fn appended(alloc: Global, lens: &[u32], inputs: Vec<Word>) -> Result<String, Fail>
    requires some { 0 < length lens.now }
    requires few { length lens.now ≤ 3 }
    requires rows { sum lens.now ≤ 4096 }
{
    let mut b = Builder::new(alloc, 0, 100_000)?;
    let lists = number_lists(alloc, &mut b, lens)?;
    let out = append(alloc, &mut b, &lists)?;
    let words = words_of(alloc, b, inputs)?;
    text_of(alloc, &words, &out)
}

#[test]
fn lists_that_end_at_other_lanes_are_appended(rt: HostRuntime) -> Result<(), Fail> {
    let alloc = rt.alloc();
    let first: &[Placed] = &[(0, 1, 0), (62, 2, 0)];
    let second: &[Placed] = &[(0, 3, 0), (63, 4, 0)];
    let third: &[Placed] = &[(0, 5, 0), (63, 6, 0), (64, 7, 0)];
    let mut inputs = words_with(alloc, 63, 1, 9, first)?;
    inputs.extend_from_slice(&words_with(alloc, 64, 1, 9, second)?)?;
    inputs.extend_from_slice(&words_with(alloc, 65, 1, 9, third)?)?;
    let rows = appended(alloc, &[63, 64, 65], inputs)?;
    assert_eq!(rt; rows.as_str(), " 1; 2; 3; 4; 5; 6; 7;");
    let alone = appended(alloc, &[65], words_with(alloc, 65, 1, 9, third)?)?;
    assert_eq!(rt; alone.as_str(), " 5; 6; 7;");
    Ok(())
}

/// A list of this length, with these rows.
type Side<'a> = (u32, &'a [Placed]);

/// The length of a join on equality that may make so many And gates, and its rows.
fn join_equal(alloc: Global, ands: u32, left: Side<'_>, right: Side<'_>) -> Result<String, Fail>
    requires { left.0 * right.0 ≤ 4096 }
{
    let mut b = Builder::new(alloc, ands, 100_000)?;
    let l = numbers_list(alloc, &mut b, left.0)?;
    let r = numbers_list(alloc, &mut b, right.0)?;
    let on = only(
        alloc,
        Cmp {
            left: column(0, None),
            op: Op::Eq,
            right: Operand::Term(column(1, None)),
        },
    )?;
    let out = join(alloc, &mut b, &l, &r, &on);
    let len = match &out {
        Ok(list) => list.len(),
        Err(_) => 0,
    };
    let mut inputs = words_with(alloc, left.0, 1, 9, left.1)?;
    inputs.extend_from_slice(&words_with(alloc, right.0, 1, 9, right.1)?)?;
    Ok(format!(in alloc; "{len}:{}", told(alloc, b, out, inputs)?)?)
}

#[test]
fn a_join_keeps_each_pair_of_equal_rows(rt: HostRuntime) -> Result<(), Fail> {
    let alloc = rt.alloc();
    let three: Side<'_> = (3, &[(0, 5, 0), (1, 7, 0), (2, 5, 0)]);
    let four: Side<'_> = (4, &[(0, 7, 0), (1, 5, 0), (2, 5, 0), (3, 1, 0)]);
    let within = join_equal(alloc, 33, three, four)?;
    assert_eq!(rt; within.as_str(), "12: 5 5; 5 5; 7 7; 5 5; 5 5;");
    let past = join_equal(alloc, 32, three, four)?;
    assert_eq!(rt; past.as_str(), "0:limit 2");
    Ok(())
}

#[test]
fn project_gives_columns_in_any_order_and_no_gates(rt: HostRuntime) -> Result<(), Fail> {
    let alloc = rt.alloc();
    let mut b = Builder::new(alloc, 0, 10_000)?;
    let list = pairs_list(alloc, &mut b, 65)?;
    let gates = b.len();
    let out = project(alloc, &list, &[1, 0, 1])?;
    assert_eq!(rt; b.len(), gates);
    let words = words_of(
        alloc,
        b,
        words_with(alloc, 65, 2, 9, &[(1, 5, 8), (64, 6, 7)])?,
    )?;
    assert_eq!(rt; text_of(alloc, &words, &out)?.as_str(), " 8 5 8; 7 6 7;");
    Ok(())
}
