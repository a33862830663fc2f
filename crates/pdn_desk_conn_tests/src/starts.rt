//! A desk is started.
ghost use Rattle.std.specs.Prelude.{◌≤◌, length, IfOk};

use pdn_base::{MemFiles, MemSink};
use pdn_desk::serve_start;
use pdn_schema::print_schema;
use std::alloc::Global;
use std::test::Fail;

const SCHEMA: &str = "version 1
floor 3
caller ann calls 2
table t rows 8
column c int private
table diag rows 16
column pid int public per 4
column code code protected
column day int private
table med rows 16
column pid int public per 4
column drug code protected
column day int private
table wide rows 256
column y int public per 64
column x int private
end
";

/// The file of the schema, with this text.
fn schema_file(alloc: Global, text: &str) -> Result<(String, Vec<u8>), Fail>
    requires { length text.now ≤ 1000 }
    ensures { IfOk result (λ f. length f.1.items ≤ 536870912) }
{
    Ok((
        String::from_str(alloc, "net.schema")?,
        text.as_bytes().to_vec(alloc)?,
    ))
}

/// Files of which the schema's has this text, or isn't there; their call of this number fails.
fn files(alloc: Global, text: Option<&str>, fail: Option<u64>) -> Result<MemFiles, Fail> {
    let mut fails = Vec::new(alloc);
    if let Some(number) = fail {
        fails.push(number)?;
    }
    match text {
        Some(text) if text.len() <= 1000 => {
            let files = vec![in alloc; schema_file(alloc, text)?]?;
            Ok(MemFiles::new(files, fails))
        }
        _ => Ok(MemFiles::new(Vec::new(alloc), fails)),
    }
}

/// What a desk is started with, or the status' number, and behind it the line that is put, as a text.
fn start(alloc: Global, command: &str, mut files: MemFiles) -> Result<String, Fail> {
    let mut words = Vec::new(alloc);
    for word in command.split(' ') {
        words.push(String::from_str(alloc, word)?)?;
    }
    let mut out = MemSink::new(alloc, 100, Vec::new(alloc))
        .ok()
        .ok_or("memory")?;
    let came = match serve_start(alloc, &words, &mut files, &mut out) {
        Ok(start) => {
            let schema = print_schema(alloc, &start.schema).ok().ok_or("memory")?;
            let schema = str::from_utf8(&schema).ok().ok_or("it is a text")?;
            let workers = start.workers.count;
            format!(in alloc; "{} {workers} {} {schema}", start.port, start.connections)?
        }
        Err(status) => format!(in alloc; "{} ", status.code())?,
    };
    let line = str::from_utf8(out.bytes()).ok().ok_or("it is a text")?;
    Ok(format!(in alloc; "{came}{line}")?)
}

#[test]
fn refusals_of_a_start(rt: HostRuntime) -> Result<(), Fail> {
    let alloc = rt.alloc();
    for (words, text, fail, wanted) in [
        ("0 1 1", None, None, "2 refused 2 words\n"),
        ("65536 1 1", None, None, "2 refused 2 words\n"),
        ("018080 1 1", None, None, "2 refused 2 words\n"),
        ("18080 0 1", None, None, "2 refused 2 words\n"),
        ("18080 17 1", None, None, "2 refused 2 words\n"),
        ("18080 1 65536", None, None, "2 refused 2 words\n"),
        ("18080 1 00", None, None, "2 refused 2 words\n"),
        ("18080 1", None, None, "2 refused 2 words\n"),
        ("18080 1 0 0", None, None, "2 refused 2 words\n"),
        ("18080 1 0", None, None, "9 refused 9 net.schema\n"),
        ("65535 16 65535", None, None, "9 refused 9 net.schema\n"),
        ("18080 1 0", None, Some(1), "10 refused 10 files\n"),
    ] {
        let files = files(alloc, text, fail)?;
        let came = start(alloc, words, files)?;
        assert_eq!(rt; came.as_str(), wanted, "{words}");
    }
    Ok(())
}

#[test]
fn a_schema_file_that_is_none(rt: HostRuntime) -> Result<(), Fail> {
    let alloc = rt.alloc();
    let files = files(alloc, Some("version 1\nfloor 0\n"), None)?;
    let came = start(alloc, "18080 1 0", files)?;
    assert_eq!(rt; came.as_str(), "3 refused 3 line 2 cause 4\n");
    Ok(())
}

#[test]
fn a_start(rt: HostRuntime) -> Result<(), Fail> {
    let alloc = rt.alloc();
    for (words, numbers) in [("18080 1 0", "18080 1 0 "), ("1 16 65535", "1 16 65535 ")] {
        let files = files(alloc, Some(SCHEMA), None)?;
        let came = start(alloc, words, files)?;
        let wanted = format!(in alloc; "{numbers}{SCHEMA}")?;
        assert_eq!(rt; came.as_str(), wanted.as_str());
    }
    Ok(())
}
