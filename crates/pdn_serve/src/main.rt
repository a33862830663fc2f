//! The desk's program: it serves connections on loopback, one after the other.
#![tactic(auto)]

use pdn_base::{Files, Memory, RealFiles, Sink, Status, StdSink, Who};
use pdn_broker::Watch;
use pdn_dealer::{ChaChaDeal, Deal};
use pdn_desk::{DeskEnd, DeskOutside, Start, line_of, serve_conn, serve_start};
use pdn_link::TcpLink;
use pdn_query::{Crew, World};
use pdn_schema::Schema;
use pdn_startup::dealer_of;
use pdn_store::{SqliteDesk, SqliteSite};
use std::alloc::Global;
use std::io::{ErrorKind, Read};
use std::net::{Net, Shutdown, TcpListener, TcpStream};
use std::process::ExitCode;
use std::rt::Env;
use std::thread::Threads;
use std::time::Duration;
use std::{env, io};

const HELP: &str = "\
pdn_serve <port> <workers> <connections>         serves so many connections on loopback, and prints a line for each
pdn_serve --help                                 prints this
pdn_serve --version                              prints the version

A connection is one request of HTTP/1.1: POST /callers/<caller>/queries/<number> with a query as its body answers it,
and GET of the same path gives what was answered. The schema is the file net.schema, the key of the tape the file
tape.key. The sites keep their rows in the files a.db and b.db, the desk its tickets and answers in desk.db.
";

const VERSION: &str = "pdn_serve 0.1.0\n";

fn main(rt: HostRuntime) -> ExitCode {
    let alloc = rt.alloc();
    let mut files = RealFiles::new(&rt);
    let mut out = StdSink::new(io::writer(&rt));
    let words = match words(&rt) {
        Ok(words) => words,
        Err(e) if e.kind() == ErrorKind::OutOfMemory => return ExitCode::from(
            Status::Memory.code(),
        ),
        // Words that are no text are refused as no words are.
        Err(_) => Vec::new(alloc),
    };
    if let Some(text) = about(&words) {
        return match out.put(text.as_bytes()) {
            Ok(()) => ExitCode::SUCCESS,
            Err(_) => ExitCode::FAILURE,
        };
    }
    let Some(deal) = dealer_there(alloc, &mut files) else {
        return fault(&mut out, "fault 1 tape.key\n");
    };
    let start = match serve_start(alloc, &words, &mut files, &mut out) {
        Ok(start) => start,
        Err(status) => return ExitCode::from(status.code()),
    };
    let Ok(listener) = TcpListener::bind(&rt, ("127.0.0.1", start.port)) else {
        return fault(&mut out, "fault 1 port\n");
    };
    let mut world = World {
        files,
        site_a: SqliteSite::open_at(rt, "a.db"),
        site_b: SqliteSite::open_at(rt, "b.db"),
        desk: SqliteDesk::open_at(rt, "desk.db"),
        out,
    };
    serve(&rt, alloc, &listener, &start, &mut world, &deal)
}

// Serves the connections, one after the other.
fn serve<R: Threads + Sync, W: DeskOutside, D: Deal + Watch>(
    rt: &R,
    alloc: Global,
    listener: &TcpListener,
    start: &Start,
    world: &mut W,
    deal: &D,
) -> ExitCode {
    let crew = Crew {
        rt,
        deal,
        workers: start.workers,
    };
    for _ in 0..start.connections {
        let Ok((stream, _)) = listener.accept() else {
            // Where this put fails, there is nothing left to say.
            let _put = world.put(b"fault 1 port\n");
            return ExitCode::FAILURE;
        };
        let end = converse(alloc, &stream, &start.schema, world, &crew);
        let Ok(line) = line_of(alloc, end) else {
            return ExitCode::from(Status::Memory.code());
        };
        if world.put(line.as_bytes()).is_err() {
            return ExitCode::from(Status::Unavailable { who: Who::Sink }.code());
        }
    }
    ExitCode::SUCCESS
}

// Serves one connection, and ends it. A peer that neither sends nor takes anything for half a minute has failed, so that
// it doesn't keep the others waiting.
fn converse<R: Threads + Sync, W: DeskOutside, D: Deal + Watch>(
    alloc: Global,
    stream: &TcpStream,
    schema: &Schema,
    world: &mut W,
    crew: &Crew<'_, R, D>,
) -> Result<DeskEnd, Memory> {
    wait_at_most(stream, Duration::from_secs(30));
    let mut link = TcpLink::new(stream);
    let end = serve_conn(alloc, &mut link, schema, world, crew);
    close(stream);
    end
}

// Has each call of a stream wait no longer than this. The system refuses that for no open stream; if it did, the calls
// would wait for the peer.
fn wait_at_most(stream: &TcpStream, duration: Duration) {
    let _read = stream.set_read_timeout(Some(duration));
    let _write = stream.set_write_timeout(Some(duration));
}

// Ends a connection, so that its reply isn't lost with what the peer still sends: a system that has unread bytes resets
// the connection where it is closed. Reads a part of them, and waits no longer than a second for each piece.
fn close(stream: &TcpStream) {
    let _shut = stream.shutdown(Shutdown::Write);
    wait_at_most(stream, Duration::from_secs(1));
    let mut reader = stream;
    let mut room = [0; 16384];
    for _ in 0..64 {
        match reader.read(&mut room) {
            Ok(0) | Err(_) => return,
            Ok(_) => (),
        }
    }
}

// Says why the program ends.
fn fault(out: &mut impl Sink, line: &str) -> ExitCode {
    // Where this put fails, there is nothing left to say.
    let _put = out.put(line.as_bytes());
    ExitCode::FAILURE
}

// The words after the program's name.
fn words(rt: &(impl Env + AllocGlobal)) -> io::Result<Vec<String>> {
    let mut words = Vec::new(rt.alloc());
    for word in env::args(rt)?.skip(1) {
        words.push(word)?;
    }
    Ok(words)
}

// The dealer of the key in the file `tape.key`.
fn dealer_there(alloc: Global, files: &mut impl Files) -> Option<ChaChaDeal> {
    let text = files.read(alloc, "tape.key").ok()?;
    dealer_of(&text)
}

// What the program says of itself.
fn about(words: &[String]) -> Option<&'static str> {
    match words {
        [word] if word.as_str() == "--help" => Some(HELP),
        [word] if word.as_str() == "--version" => Some(VERSION),
        _ => None,
    }
}
