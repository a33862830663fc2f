//! Every line that a program prints where something is refused or fails is explained, and no other.
use pdn_explain::explain;

// A line, and a word of what is wrong that its explanation must name.
const EXPLAINED: [(&str, &str); 55] = [
    ("refused 2 words", "command line"),
    ("refused 3 line 7 cause 1", "none of the six forms"),
    ("refused 3 line 5 cause 2", "'end'"),
    ("refused 3 line 1 cause 3", "'version 1'"),
    ("refused 3 line 2 cause 4", "1 to 64"),
    ("refused 3 line 4 cause 5", "1 to 256"),
    ("refused 3 line 5 cause 6", "'per'"),
    ("refused 3 line 6 cause 7", "before"),
    ("refused 3 line 40 cause 8", "eight"),
    ("refused 3 line 4 cause 9", "no column"),
    ("refused 4 place 0 kind 1", "character"),
    ("refused 4 place 17 kind 2", "4294967295"),
    ("refused 4 place 35 kind 3", "1 to 8"),
    ("refused 4 place 7 kind 4", "16"),
    ("refused 4 place 22 kind 5", "semicolon"),
    ("refused 4 place 120 kind 6", "fifth"),
    ("refused 4 place 4096 kind 7", "4096"),
    ("refused 4 place 0 kind 8", "16 queries"),
    ("refused 5 kind 1 u", "no table"),
    ("refused 5 kind 2 day", "ORDER BY"),
    ("refused 5 kind 2 d.dya", "ORDER BY"),
    ("refused 5 kind 3 pid", "two things"),
    ("refused 5 kind 4 d.code", "code"),
    ("refused 5 kind 5", "join"),
    ("refused 5 kind 6 day", "GROUP BY"),
    ("refused 5 kind 7 d", "LIMIT"),
    ("refused 5 kind 8", "32"),
    ("refused 5 kind 9", "16"),
    ("refused 6 diag.code protected", "HAVING"),
    ("refused 6 n private", "private"),
    ("refused 7 limit 1 unit 0", "4096"),
    ("refused 7 limit 2 unit 3", "4194304"),
    ("refused 7 limit 3 unit 12", "16777216"),
    ("refused 8 a t rows", "Site A"),
    ("refused 8 b t rows", "Site B"),
    ("refused 8 a diag per pid", "site A"),
    ("refused 8 b diag per pid", "site B"),
    ("refused 8 a diag type 0 code", "site A"),
    ("refused 8 b diag type 15 3", "site B"),
    ("refused 9 none.sql", "no file"),
    ("refused 9 a file.sql", "no file"),
    ("refused 10 files", "536870912"),
    ("refused 10 site a", "a.db"),
    ("refused 10 site b", "b.db"),
    ("refused 10 desk", "desk.db"),
    ("refused 11 tickets", "new key"),
    ("refused 13 record 0 cause 1", "names"),
    ("refused 13 record 3 cause 2", "number of fields"),
    ("refused 13 record 2 cause 3", "no value"),
    ("refused 14 row 1", "other rows"),
    ("refused 15 rows", "'rows'"),
    ("refused 15 per pid", "'per'"),
    ("refused 16 diag.pid", "worlds"),
    ("fault 1 tape.key", "hexadecimal"),
    ("fault 1 port", "port"),
];

const LEFT_ALONE: [&str; 32] = [
    "",
    "refused",
    "refused 0",
    "refused 1 words",
    "refused 12",
    "refused 17 line 3",
    "refused 2 words ",
    " refused 2 words",
    "Refused 2 words",
    "refused 2 words\n",
    "refused 3 line 7 cause 0",
    "refused 3 line 7 cause 10",
    "refused 3 line 07 cause 1",
    "refused 3 line  cause 1",
    "refused 3 line x cause 1",
    "refused 4 place 22 kind 9",
    "refused 4 place -1 kind 5",
    "refused 5 kind 1",
    "refused 5 kind 5 day",
    "refused 5 kind 2 two words",
    "refused 6 diag.pid public",
    "refused 7 limit 4 unit 0",
    "refused 8 c t rows",
    "refused 8 a t type code",
    "refused 10 sink",
    "refused 13 record 2 cause 4",
    "refused 14 row",
    "refused 15 rows 9",
    "fault 1 a.db",
    "fault 2 tape.key",
    "query 1 ticket 0 rows 1",
    "loaded new t batch 1 rows 8",
];

// A text stands in another.
fn has(text: &str, word: &str) -> bool {
    text.find(word).is_some()
}

#[test]
fn each_line_of_a_refusal_is_explained(rt: HostRuntime) {
    for (line, word) in &EXPLAINED {
        let means = explain(line);
        assert!(rt; means.is_some());
        if let Some(means) = means {
            assert!(rt; has(means, word));
        }
    }
}

#[test]
fn other_lines_are_left_alone(rt: HostRuntime) {
    for line in &LEFT_ALONE {
        assert!(rt; explain(line).is_none());
    }
}
