//! The program of a private data network of two sites.
#![tactic(auto)]

use pdn_base::{FileErr, Files, RealFiles, Sink, Status, StdSink};
use pdn_commands::{World, pdn};
use pdn_dealer::ChaChaDeal;
use pdn_explain::{explain, explain_in, place_of};
use pdn_startup::dealer_of;
use pdn_store::{SqliteDesk, SqliteSite};
use std::alloc::{AllocError, Global};
use std::io::ErrorKind;
use std::process::ExitCode;
use std::rt::Env;
use std::{env, io};

const HELP: &str = "\
pdn run <sqlfile> <workers>                      answers the queries of the file over the rows of both sites
pdn run <sqlfile> <workers> show <view>          the same, and behind each answer what a, b, the broker or all see of it
pdn twin <a or b> <sqlfile> <folder> <workers>   what a or b sees of each query in two worlds, and the change of the tape
pdn check <sqlfile>                              prints the schema, and each query's form, columns and segments
pdn load <a or b> <table> <batch> <csvfile>      gives a site a batch of a table
pdn gen <seed> <patients> <workers>              answers three queries over a made-up network of so many patients
pdn --explain <line>                             says what a line 'refused ..' or 'fault ..' means, and what to do
pdn --explain <line> <sqlfile>                   the same for a line 'refused 4 ..', and shows the place in the file
pdn --help                                       prints this
pdn --version                                    prints the version

The schema is the file net.schema, the key of the tape the file tape.key. The sites keep their rows in the files a.db
and b.db, the desk its tickets in desk.db; each is made where there is none.
";

const NO_REFUSAL: &str = "This is no line by which the program refuses or fails.";

const NO_FILE: &str = "The file whose name stands behind the line can't be read.";

const NO_PLACE: &str = "The file whose name stands behind the line ends before this place.";

const VERSION: &str = "pdn 0.1.0\n";

fn main(rt: HostRuntime) -> ExitCode {
    let alloc = rt.alloc();
    let mut files = RealFiles::new(&rt);
    let mut out = StdSink::new(io::writer(&rt));
    let words = match words(&rt) {
        Ok(words) => words,
        Err(e) if e.kind() == ErrorKind::OutOfMemory => return ExitCode::from(
            Status::Memory.code(),
        ),
        // Words that are no text are refused as no words are.
        Err(_) => Vec::new(alloc),
    };
    if let Some(code) = answer_alone(alloc, &words, &mut files, &mut out) {
        return code;
    }
    let Some(deal) = dealer_there(alloc, &mut files) else {
        // Where this put fails, there is nothing left to say.
        let _put = out.put(b"fault 1 tape.key\n");
        return ExitCode::FAILURE;
    };
    let mut world = World {
        files,
        site_a: SqliteSite::open_at(rt, "a.db"),
        site_b: SqliteSite::open_at(rt, "b.db"),
        desk: SqliteDesk::open_at(rt, "desk.db"),
        out,
    };
    let status = pdn(&rt, alloc, &words, &mut world, &deal);
    ExitCode::from(status.code())
}

// The words after the program's name.
fn words(rt: &(impl Env + AllocGlobal)) -> io::Result<Vec<String>> {
    let mut words = Vec::new(rt.alloc());
    for word in env::args(rt)?.skip(1) {
        words.push(word)?;
    }
    Ok(words)
}

// The dealer of the key in the file `tape.key`.
fn dealer_there(alloc: Global, files: &mut impl Files) -> Option<ChaChaDeal> {
    let text = files.read(alloc, "tape.key").ok()?;
    dealer_of(&text)
}

// Answers the words that want neither key nor store.
fn answer_alone(
    alloc: Global,
    words: &[String],
    files: &mut impl Files,
    out: &mut impl Sink,
) -> Option<ExitCode> {
    match words {
        [first, line @ ..] if first.as_str() == "--explain" => Some(tell(alloc, line, files, out)),
        _ => about(words).map(|text| put(out, text.as_bytes(), ExitCode::SUCCESS)),
    }
}

// Says what a line means, and where in a file if a file's name stands behind a line that names a place. The line may be
// one word or several.
fn tell(alloc: Global, words: &[String], files: &mut impl Files, out: &mut impl Sink) -> ExitCode {
    if let [line @ .., file] = words {
        let Ok(line) = by_blanks(alloc, line) else {
            return ExitCode::from(Status::Memory.code());
        };
        if place_of(line.as_bytes()).is_some() && explain(line.as_str()).is_some() {
            return tell_place(alloc, line.as_str(), file.as_str(), files, out);
        }
    }
    tell_line(alloc, words, out)
}

fn tell_line(alloc: Global, words: &[String], out: &mut impl Sink) -> ExitCode {
    let Ok(line) = by_blanks(alloc, words) else {
        return ExitCode::from(Status::Memory.code());
    };
    match explain(line.as_str()) {
        Some(means) => say(alloc, means, ExitCode::SUCCESS, out),
        None => say(alloc, NO_REFUSAL, ExitCode::from(Status::Words.code()), out),
    }
}

fn tell_place(
    alloc: Global,
    line: &str,
    name: &str,
    files: &mut impl Files,
    out: &mut impl Sink,
) -> ExitCode {
    let unsaid = ExitCode::from(Status::Words.code());
    let file = match files.read(alloc, name) {
        Ok(file) => file,
        Err(FileErr::Memory) => return ExitCode::from(Status::Memory.code()),
        Err(_) => return say(alloc, NO_FILE, unsaid, out),
    };
    match explain_in(alloc, line, &file) {
        Ok(Some(text)) => put(out, &text, ExitCode::SUCCESS),
        Ok(None) => say(alloc, NO_PLACE, unsaid, out),
        Err(_) => ExitCode::from(Status::Memory.code()),
    }
}

// Puts a sentence as a line.
fn say(alloc: Global, text: &str, code: ExitCode, out: &mut impl Sink) -> ExitCode {
    match format!(in alloc; "{text}\n") {
        Ok(line) => put(out, line.as_bytes(), code),
        Err(_) => ExitCode::from(Status::Memory.code()),
    }
}

// Words with a blank between any two.
fn by_blanks(alloc: Global, words: &[String]) -> Result<String, AllocError> {
    let mut line = String::new(alloc);
    for word in words {
        if !line.is_empty() {
            line.push_str(" ")?;
        }
        line.push_str(word.as_str())?;
    }
    Ok(line)
}

// Puts a text, and ends so where that is done.
fn put(out: &mut impl Sink, text: &[u8], code: ExitCode) -> ExitCode {
    match out.put(text) {
        Ok(()) => code,
        Err(_) => ExitCode::FAILURE,
    }
}

// What the program says of itself.
fn about(words: &[String]) -> Option<&'static str> {
    match words {
        [word] if word.as_str() == "--help" => Some(HELP),
        [word] if word.as_str() == "--version" => Some(VERSION),
        _ => None,
    }
}
