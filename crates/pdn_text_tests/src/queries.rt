//! Queries read and printed, and the number of queries that a text may hold.
use pdn_sql::{Query, SqlErr, print_query, read_queries};
use std::test::Fail;

/// The queries of a short text.
fn read(rt: &HostRuntime, text: &[u8], most: u32) -> Result<Vec<Query>, SqlErr> {
    if text.len() > 100000 {
        return Err(SqlErr::Memory);
    }
    read_queries(rt.alloc(), text, most)
}

/// A text, how many queries it may hold, and the place and kind of its first fault.
const FAULTS: &[(&str, u32, u32, u8)] = &[
    ("SELECT a FROM t; SELECT a FROM t;", 1, 17, 8),
    ("SELECT a FROM t; WITH a", 1, 17, 8),
    ("SELECT a FROM t; ;", 1, 17, 5),
    ("SELECT a FROM t;SELECT a FROM t;SELECT a FROM t;", 2, 32, 8),
    ("SELECT COUNT(*) FROM t", 16, 22, 5),
];

#[test]
fn a_query_too_many_is_refused_at_its_place(rt: HostRuntime) {
    for (text, most, place, kind) in FAULTS {
        let fault = SqlErr::At {
            place: *place,
            kind: *kind,
        };
        assert_eq!(rt;
            read(&rt, text.as_bytes(), *most).err(),
            Some(fault),
            "{text}"
        );
    }
}

#[test]
fn queries_are_read_in_order_and_printed(rt: HostRuntime) -> Result<(), Fail> {
    let text =
        b"select  count( * ) from T where C=05 ; WITH d AS (SELECT b FROM t)\nSELECT b FROM d;";
    let queries = read(&rt, text, 16).ok().ok_or("the text is two queries")?;
    assert_eq!(rt; queries.len(), 2);
    let second = queries.get(1).ok_or("there is a second query")?;
    let named = second.with.get(0).ok_or("it has a block of WITH")?;
    assert_eq!(rt; named.name.at, 44);
    for (query, wanted) in queries.iter().zip([
        "SELECT COUNT(*) FROM t WHERE c = 5;",
        "WITH d AS (SELECT b FROM t) SELECT b FROM d;",
    ]) {
        let printed = print_query(rt.alloc(), query).ok().ok_or("memory")?;
        assert_eq!(rt; printed.as_slice(), wanted.as_bytes());
    }
    Ok(())
}

/// A query whose every front lacks at least its end.
const RECURRENT: &str =
    "WITH d AS (SELECT pid, day, ROW_NUMBER() OVER (PARTITION BY pid ORDER BY day) AS r FROM diag \
    WHERE code = 'cdiff') SELECT DISTINCT a.pid FROM d a JOIN d b ON a.pid = b.pid AND b.r = a.r + 1 \
    WHERE b.day >= a.day + 15 AND b.day <= a.day + 56 ORDER BY pid;";

#[test]
fn each_front_of_a_query_is_refused(rt: HostRuntime) -> Result<(), Fail> {
    let text = RECURRENT.as_bytes();
    for size in 0..text.len() {
        let fault = read(&rt, &text[..size], 16).err().ok_or("it is no query")?;
        assert!(rt;
            matches!(fault, SqlErr::At { place, .. } if place as usize <= size),
            "of {size} bytes"
        );
    }
    assert!(rt; read(&rt, text, 16).is_ok());
    Ok(())
}
