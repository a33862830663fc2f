//! Files that are refused as schemas.
use crate::texts::LARGE;
use pdn_schema::{SchemaErr, read_schema};
use std::alloc::Global;
use std::test::Fail;

/// Files, a line each, with `/` for a line feed, then the line and the cause that are answered.
const FAULTS: &str = "version 1/floor 65/table t rows 8/column c int private/end/ => 2 4
version 1/floor 3/table t rows 8/column c int private/ => 5 2
version 1/floor 3/table t rows 8/column c int private => 5 2
 => 1 2
version one/ => 1 1
version 00000000001/ => 1 1
version 1 # one/ => 1 1
# no//floor 3/ => 3 2
version 1/floor 3/version 2/ => 3 2
version 2/ => 1 3
version 1/floor 0/ => 2 4
version 1/floor 3/floor 65/ => 3 2
version 1/floor 3/caller a calls 65537/ => 3 4
version 1/floor 3/caller a calls 65536/caller a calls 0/ => 4 4
version 1/floor 3/caller a calls 1/caller a calls 1/ => 4 7
version 1/floor 3/table t rows 257/ => 3 5
version 1/floor 3/table t rows 1/caller a calls 1/ => 4 2
version 1/floor 3/column c int private/ => 3 2
version 1/floor 3/table t rows 4/column c int public per 5/ => 4 6
version 1/floor 3/table t rows 256/column c int public per 65/ => 4 6
version 1/floor 3/table t rows 4/column c int private per 1/ => 4 1
version 1/floor 3/table t rows 4/column c text private/ => 4 1
version 1/floor 3/table t rows 4/column c int public/ => 4 1
version 1/floor 3/table t rows 4/column c int private/column c int public per 0/ => 5 6
version 1/floor 3/table t rows 4/column c int private/column c code protected/ => 5 7
version 1/floor 3/table t rows 4/table t rows 4/ => 4 7
version 1/floor 3/table t rows 4/table u rows 4/ => 4 9
version 1/floor 3/table t rows 4/end/ => 4 9
version 1/floor 3/end/ => 3 9
version 1/floor 3/table t rows 4/column c int private/end/# over//nothing/ => 8 2
version 1/floor 3/table t rows 4/column c int private/end\r => 5 1
version 1/floor 3/table abcdefghijklmnopq rows 4/ => 3 1
version 1/floor 3/table group rows 4/ => 3 1
version 1/floor 3/table 1st rows 4/ => 3 1
version 1/floor 3/table T rows 4/ => 3 1
version 1/floor 3/caller a calls 1/caller b calls 1/caller c calls 1/caller d calls 1/caller e calls 1/caller f calls 1/caller g calls 1/caller h calls 1/caller i calls 1/ => 11 8
version 1/floor 3/table a rows 1/column c int private/table b rows 1/column c int private/table c rows 1/column c int private/table d rows 1/column c int private/table e rows 1/column c int private/table f rows 1/column c int private/table g rows 1/column c int private/table h rows 1/table i rows 1/ => 18 8
version 1/floor 3/table t rows 1/column a int private/column b int private/column c int private/column d int private/column e int private/column f int private/column g int private/column h int private/column i int private/ => 12 8
version 1/floor 3/table t rows 1/column a int private/column b int private/column c int private/column d int private/column e int private/column f int private/column g int private/column h int private/column h int private/ => 12 7";

/// The line and the cause that a text of at most 1,000,000 bytes is refused with.
fn refusal(alloc: Global, text: &str) -> Option<(u32, u8)> {
    if text.len() > 1_000_000 {
        return None;
    }
    match read_schema(alloc, text.as_bytes()) {
        Err(SchemaErr::Line { line, cause }) => Some((line, cause)),
        _ => None,
    }
}

#[test]
fn the_first_fault_is_answered_with_its_least_cause(rt: HostRuntime) -> Result<(), Fail> {
    let alloc = rt.alloc();
    for case in FAULTS.split('\n') {
        let (file, wanted) = case.split_once(" => ").ok_or("a case has an arrow")?;
        let text = file.replace(alloc, "/", "\n")?;
        let (line, cause) = refusal(alloc, text.as_str()).ok_or("it is refused for a line")?;
        let got = format!(in alloc; "{line} {cause}")?;
        assert_eq!(rt; got.as_str(), wanted, "of {file}");
    }
    // no front of a file is one, but for what has no last line feed
    let whole = LARGE.len();
    for length in 0..whole {
        let front = LARGE.as_bytes().get(..length).unwrap_or(b"");
        let is_one = read_schema(alloc, front).is_ok();
        assert_eq!(rt; is_one, length + 1 == whole, "at {length}");
    }
    Ok(())
}
