//! Where the places of a file are said to stand.
use pdn_explain::{explain_in, place_of, place_text};

// A file, a place in it, and what is said of the place.
const SHOWN: [(&str, usize, &str); 13] = [
    ("", 0, "line 1, column 1\n\n^\n"),
    ("SELECT 1;", 7, "line 1, column 8\nSELECT 1;\n       ^\n"),
    ("SELECT a", 8, "line 1, column 9\nSELECT a\n        ^\n"),
    ("SELECT a\n", 9, "line 2, column 1\n\n^\n"),
    ("SELECT a\n", 8, "line 1, column 9\nSELECT a\n        ^\n"),
    ("SELECT a\nFRM t;\n", 9, "line 2, column 1\nFRM t;\n^\n"),
    (
        "SELECT a\nFROM t t;",
        16,
        "line 2, column 8\nFROM t t;\n       ^\n",
    ),
    ("a\n\n\nb c\nd", 6, "line 4, column 3\nb c\n  ^\n"),
    ("\n\n", 1, "line 2, column 1\n\n^\n"),
    ("a\r\nb !\r\nc", 5, "line 2, column 3\nb ! \n  ^\n"),
    ("\t\ta\u{1}", 2, "line 1, column 3\n  a?\n  ^\n"),
    (
        "c = '\u{fc}\u{20ac}\u{1f600}' !",
        16,
        "line 1, column 11\nc = '\u{fc}\u{20ac}\u{1f600}' !\n          ^\n",
    ),
    ("\u{1b}[2J\u{7f}", 0, "line 1, column 1\n?[2J?\n^\n"),
];

// A line, and the place that it names.
const NAMED: [(&str, Option<u32>); 10] = [
    ("refused 4 place 0 kind 8", Some(0)),
    ("refused 4 place 22 kind 5", Some(22)),
    ("refused 4 place 4294967295 kind 1", Some(4294967295)),
    ("refused 4 place 4294967296 kind 1", None),
    ("refused 4 place 022 kind 5", None),
    ("refused 4 place  kind 5", None),
    ("refused 4 place 22 kind 5 q.sql", None),
    ("refused 4 place 22", None),
    ("refused 3 line 22 cause 5", None),
    ("refused 4", None),
];

#[test]
fn each_place_is_shown(rt: HostRuntime) {
    for (file, place, text) in &SHOWN {
        if *place <= file.len() {
            let shown = place_text(rt.alloc(), file.as_bytes(), *place).expect(&rt, "memory");
            assert!(rt; shown.as_slice() == text.as_bytes());
        }
    }
}

#[test]
fn a_byte_that_goes_on_with_no_character_takes_no_column(rt: HostRuntime) {
    let shown = place_text(rt.alloc(), &[97, 0x80, 0xff, 98], 3).expect(&rt, "memory");
    assert!(rt; shown.as_slice() == b"line 1, column 3\na\x80\xffb\n  ^\n".as_slice());
}

#[test]
fn each_place_is_read(rt: HostRuntime) {
    for (line, place) in &NAMED {
        assert!(rt; place_of(line.as_bytes()) == *place);
    }
}

#[test]
fn a_line_is_told_with_its_place(rt: HostRuntime) {
    let line = "refused 4 place 22 kind 5";
    let told = explain_in(rt.alloc(), line, b"SELECT COUNT(*) FROM t").expect(&rt, "memory");
    let text = told.expect(&rt, "a place of the file");
    assert!(rt;
        text.ends_with(
            b"semicolon.\nline 1, column 23\nSELECT COUNT(*) FROM t\n                      ^\n"
        )
    );
}

#[test]
fn a_line_with_no_place_in_the_file_is_not_told(rt: HostRuntime) {
    for line in [
        "refused 4 place 3 kind 5",
        "refused 4 place 2 kind 9",
        "refused 3 line 1 cause 1",
        "loaded new",
    ] {
        let told = explain_in(rt.alloc(), line, b"ab").expect(&rt, "memory");
        assert!(rt; told.is_none());
    }
}
