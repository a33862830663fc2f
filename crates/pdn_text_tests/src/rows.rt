//! Codes, numbers, values and words, and rows in order.
use crate::texts::{code, rows_of};
use pdn_base::{Code, Key, Tables, Value, Word, number, sort_rows};
use std::test::Fail;

#[test]
fn codes_are_texts_with_numbers(rt: HostRuntime) -> Result<(), Fail> {
    let alloc = rt.alloc();
    for (text, number) in [
        (b"flu".as_slice(), 0x666c_7500_0000_0000),
        (b"!", 0x2100_0000_0000_0000),
        (b"~~~~~~~~", 0x7e7e_7e7e_7e7e_7e7e),
        (b"A-1/b", 0x412d_312f_6200_0000),
    ] {
        let code = Code::read(text);
        assert!(rt; code.is_some());
        if let Some(code) = code {
            assert_eq!(rt; code.number(), number);
            assert_eq!(rt; Code::of_number(code.number()).number(), number);
            assert_eq!(rt; code.text(alloc)?.as_slice(), text);
        }
    }
    for text in [
        b"".as_slice(),
        b"ninebytes",
        b"a b",
        b"a\"b",
        b"a'b",
        b"a,b",
        b"a\n",
        b"\x7f",
        b"\x80",
    ] {
        assert!(rt; Code::read(text).is_none());
    }
    Ok(())
}

#[test]
fn numbers_have_up_to_ten_digits_and_32_bits(rt: HostRuntime) {
    for (digits, wanted) in [
        (b"0".as_slice(), Some(0)),
        (b"0000000007", Some(7)),
        (b"4294967295", Some(u32::MAX)),
        (b"4294967296", None),
        (b"00000000005", None),
        (b"", None),
        (b"-1", None),
        (b"1 ", None),
    ] {
        assert_eq!(rt; number(digits), wanted);
    }
}

#[test]
fn values_are_ordered_by_kind_and_then_by_number(rt: HostRuntime) {
    let rising = [
        Value::Int(0),
        Value::Int(4),
        Value::Int(u32::MAX),
        code(b"!"),
        code(b"a"),
        code(b"aa"),
        code(b"ab"),
        code(b"b"),
    ];
    for at in 1..rising.len() {
        assert!(rt; rising[at - 1] < rising[at]);
        assert!(rt; rising[at - 1].rank() < rising[at].rank());
        assert!(rt; rising[at] == rising[at]);
    }
}

#[test]
fn words_are_64_lanes(rt: HostRuntime) {
    let edges = Word::from_u64(0xc000_0001_8000_0003);
    let some = Word::from_u64(0x8000_0001_0000_0001);
    assert_eq!(rt; edges.xor(&some).to_u64(), 0x4000_0000_8000_0002);
    assert_eq!(rt; edges.and(&some).to_u64(), 0x8000_0001_0000_0001);
    for (lane, set) in [
        (0, true),
        (1, false),
        (31, false),
        (32, true),
        (62, false),
        (63, true),
    ] {
        assert_eq!(rt; some.lane(lane), set, "lane {lane}");
        let all = if set { u64::MAX } else { 0 };
        assert_eq!(rt; some.spread(lane).to_u64(), all, "lane {lane}");
    }
    assert_eq!(rt; edges.move_lanes(31, 2, 62).to_u64(), 0xc000_0000_0000_0000);
    assert_eq!(rt; some.move_lanes(0, 64, 0), some);
}

/// A column by which rows are ordered.
fn key(column: u32, down: bool) -> Key {
    Key { column, down }
}

#[test]
fn sorted_rows_keep_equal_ones_and_follow_their_keys(rt: HostRuntime) -> Result<(), Fail> {
    let alloc = rt.alloc();
    let n = |number| Value::Int(number);
    let one = [n(4), n(1)];
    let low = [n(9), n(0)];
    let high = [n(9), n(2)];
    let cases: [(&[Key], [&[Value]; 4], [&[Value]; 4]); 4] = [
        (
            &[],
            [&[n(9)], &[n(4)], &[n(9)], &[n(0)]],
            [&[n(0)], &[n(4)], &[n(9)], &[n(9)]],
        ),
        (&[], [&high, &one, &low, &high], [&one, &low, &high, &high]),
        (
            &[key(0, true)],
            [&high, &one, &low, &high],
            [&low, &high, &high, &one],
        ),
        (
            &[key(1, true), key(0, false)],
            [&high, &one, &low, &high],
            [&high, &high, &one, &low],
        ),
    ];
    for (keys, given, wanted) in cases {
        let sorted = sort_rows(rows_of(alloc, &given)?, keys)?;
        assert!(rt; sorted.as_slice() == rows_of(alloc, &wanted)?.as_slice());
    }
    Ok(())
}

#[test]
fn copies_are_equal(rt: HostRuntime) -> Result<(), Fail> {
    let alloc = rt.alloc();
    let pair = [Value::Int(3), code(b"flu")];
    let rows = rows_of(alloc, &[&pair, &pair])?;
    let copy = rows.copy(alloc)?;
    assert!(rt; rows.as_slice() == copy.as_slice());
    let tables = Tables {
        lists: vec![in alloc; rows]?,
    };
    let others = tables.copy(alloc)?;
    assert_eq!(rt; others.lists.len(), 1);
    for other in &others.lists {
        assert!(rt; other.as_slice() == copy.as_slice());
    }
    Ok(())
}
