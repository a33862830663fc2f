//! What each operator gives of rows, and trees of tables.
use crate::plans::{RECURRENT, SCHEMA, bound, ints, schema_of, text_of};
use pdn_base::{
    Clause, Cmp, Code, Cond, Key, Memory, Op, Operand, Row, Rows, Tables, Term, Value, sort_rows,
};
use pdn_plain::{count, distinct, filter, group, join, number, project, run_local, top};
use std::alloc::Global;
use std::test::Fail;

/// The one comparison `column op other + plus`.
fn compared(
    alloc: Global,
    column: u32,
    op: Op,
    other: u32,
    plus: Option<u32>,
) -> Result<Cond, Memory> {
    let mut any = Vec::new(alloc);
    any.push(Cmp {
        left: Term { column, plus: None },
        op,
        right: Operand::Term(Term {
            column: other,
            plus,
        }),
    })?;
    let mut all = Vec::new(alloc);
    all.push(Clause { any })?;
    Ok(Cond { all })
}

#[test]
fn filter_join_and_project_keep_equal_rows_and_sums_do_not_wrap(
    rt: HostRuntime,
) -> Result<(), Fail> {
    let alloc = rt.alloc();
    let most = u32::MAX;
    let pairs: &[&[u32]] = &[&[1, 1], &[2, 1], &[1, 1], &[0, 3]];
    let sums: &[&[u32]] = &[&[most, 0], &[0, most]];
    for (rows, column, op, plus, wanted) in [
        (pairs, 0, Op::Eq, None, " 1 1; 1 1;"),
        (sums, 1, Op::Le, Some(most), " 4294967295 0; 0 4294967295;"),
        (sums, 1, Op::Gt, Some(most), ""),
    ] {
        let cond = compared(alloc, column, op, 1 - column, plus)?;
        let kept = filter(ints(alloc, rows)?, &cond);
        assert_eq!(rt; text_of(alloc, &kept)?.as_str(), wanted);
    }
    let left = ints(alloc, &[&[1], &[2], &[1]])?;
    let right = ints(alloc, &[&[1, 5], &[3, 6], &[1, 5]])?;
    for (op, wanted) in [
        (Op::Eq, " 1 1 5; 1 1 5; 1 1 5; 1 1 5;"),
        (Op::Gt, " 2 1 5; 2 1 5;"),
    ] {
        let joined = join(alloc, &left, &right, &compared(alloc, 0, op, 1, None)?)?;
        assert_eq!(rt; text_of(alloc, &joined)?.as_str(), wanted);
    }
    let rows = ints(alloc, &[&[1, 2], &[1, 3]])?;
    let cut = project(alloc, &rows, &[1, 0, 1])?;
    assert_eq!(rt; text_of(alloc, &cut)?.as_str(), " 2 1 2; 3 1 3;");
    Ok(())
}

#[test]
fn group_count_and_distinct_tell_how_often_and_which(rt: HostRuntime) -> Result<(), Fail> {
    let alloc = rt.alloc();
    let rows = ints(
        alloc,
        &[
            &[1, 7, 2],
            &[1, 8, 2],
            &[1, 9, 2],
            &[2, 7, 1],
            &[2, 8, 1],
            &[1, 7, 3],
        ],
    )?;
    for (having, wanted) in [
        (None, " 1 2 3; 1 3 1; 2 1 2;"),
        (Some(3), " 1 2 3;"),
        (Some(4), ""),
    ] {
        let groups = sort_rows(group(alloc, &rows, &[0, 2], having)?, &[])?;
        assert_eq!(rt; text_of(alloc, &groups)?.as_str(), wanted);
    }
    let table: &[&[u32]] = &[&[4], &[4], &[5]];
    for (rows, often, once) in [(&table[..0], " 0;", ""), (table, " 3;", " 4; 5;")] {
        let counted = count(alloc, &ints(alloc, rows)?)?;
        assert_eq!(rt; text_of(alloc, &counted)?.as_str(), often);
        let each = sort_rows(distinct(ints(alloc, rows)?)?, &[])?;
        assert_eq!(rt; text_of(alloc, &each)?.as_str(), once);
    }
    Ok(())
}

/// A column by which rows are ordered.
fn key(column: u32, down: bool) -> Key {
    Key { column, down }
}

#[test]
fn number_and_top_order_rows_up_and_down(rt: HostRuntime) -> Result<(), Fail> {
    let alloc = rt.alloc();
    let rows = ints(alloc, &[&[2, 5], &[1, 5], &[2, 4], &[2, 5], &[1, 9]])?;
    let cases: [(&[u32], &[Key], &str); 3] = [
        // in partitions of the first column, by the second: the two rows 2, 5 tie, and the earlier goes first
        (&[0], &[key(1, true)], " 2 5 1; 1 5 2; 2 4 3; 2 5 2; 1 9 1;"),
        // one partition, the first column downwards, then the second
        (
            &[],
            &[key(0, true), key(1, false)],
            " 2 5 2; 1 5 4; 2 4 1; 2 5 3; 1 9 5;",
        ),
        // no order: the columns from left to right
        (&[], &[], " 2 5 4; 1 5 1; 2 4 3; 2 5 5; 1 9 2;"),
    ];
    for (partition, order, wanted) in cases {
        let numbered = number(alloc, &rows, partition, order)?;
        assert_eq!(rt; text_of(alloc, &numbered)?.as_str(), wanted);
    }
    for (down, limit, wanted) in [
        (false, Some(0), ""),
        (false, Some(2), " 4 2; 9 0;"),
        (false, None, " 4 2; 9 0; 9 1;"),
        (true, Some(1), " 9 0;"),
    ] {
        let table = ints(alloc, &[&[9, 1], &[4, 2], &[9, 0]])?;
        let first = top(table, &[key(0, down)], limit)?;
        assert_eq!(rt; text_of(alloc, &first)?.as_str(), wanted);
    }
    Ok(())
}

/// Diagnoses of patients on days, each of its disease.
fn diagnoses(alloc: Global, days: &[(u32, &[u8], u32)]) -> Result<Rows, Fail> {
    let mut rows = Vec::new(alloc);
    for (pid, disease, day) in days {
        let code = Code::read(disease).ok_or("it is a code")?;
        let values = [Value::Int(*pid), Value::Code(code), Value::Int(*day)];
        rows.push(Row::new(Vec::from_slice(alloc, &values)?))?;
    }
    Ok(Rows { rows })
}

/// The diagnoses at site A.
const DAYS: &[(u32, &[u8], u32)] = &[
    (1, b"cdiff", 10),
    (1, b"cdiff", 30),
    (2, b"cdiff", 5),
    (3, b"cdiff", 100),
    (4, b"flu", 1),
    (5, b"cdiff", 50),
    (6, b"cdiff", 60),
    (7, b"cdiff", 7),
    (8, b"cdiff", 80),
    (9, b"cdiff", 9),
    (9, b"cdiff", 40),
    (10, b"flu", 3),
];

#[test]
fn a_query_gives_rows_of_the_tables_that_are_there(rt: HostRuntime) -> Result<(), Fail> {
    let alloc = rt.alloc();
    let schema = schema_of(alloc, SCHEMA)?;
    let tables = Tables {
        lists: vec![in alloc; ints(alloc, &[])?, diagnoses(alloc, DAYS)?]?,
    };
    for (text, wanted) in [
        (RECURRENT, " 1; 9;"),
        ("SELECT COUNT(*) FROM diag;", " 12;"),
        ("SELECT COUNT(*) FROM t;", " 0;"),
        ("SELECT COUNT(*) FROM med;", " 0;"),
    ] {
        let plan = bound(alloc, &schema, text)?;
        let rows = run_local(alloc, &schema, &plan.root, &tables)?;
        assert_eq!(rt; text_of(alloc, &rows)?.as_str(), wanted, "{text}");
    }
    Ok(())
}
