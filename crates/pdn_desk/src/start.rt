//! A desk is started.
ghost use Rattle.std.specs.Prelude.{◌≡◌, ◌≤◌, ◌<◌, ◌-◌, ◌^◌, [], length, map, codes, MatchResult};
ghost use Rattle.std.specs.String.{string_bytes};
ghost use Rattle.pdn_base.specs.Outside.{Rose};
ghost use Rattle.pdn_script.specs.Ways.{Wrote};
ghost use Rattle.pdn_schema.specs.Reading.{Says};
ghost use Rattle.pdn_script.specs.Stops.{IsRefusal};
ghost use Rattle.pdn_desk.specs.Starting.{Announces, IsFaultOf, IsSchemaThere, IsStart, IsUnstarted, Refuses, WhyNoSchema, WhyUnstarted};

use crate::numbers::numbers_of;
use pdn_base::{FileErr, Files, Name, Sink, Status, Who};
use pdn_query::Workers;
use pdn_schema::{Schema, SchemaErr, read_schema};
use pdn_script::{Stop, conclude, refused};
use std::alloc::Global;

/// What a desk is started with.
#[derive(Drop)]
pub struct Start {
    pub schema: Schema,
    /// The port to listen on, 1 to 65535.
    pub port: u16,
    pub workers: Workers,
    /// How many connections are served, at most 65535.
    pub connections: u32,
}

/// The numbers that the words `<port> <workers> <connections>` say, and the schema of the file `net.schema`; or the first refusal,
/// whose line is put on the sink: of the words, of the file, which isn't there or wasn't read, of what it says. Nothing else is put.
pub fn serve_start<F: Files, S: Sink>(
    alloc: Global,
    words: &[String],
    files: &mut F,
    out: &mut S,
) -> Result<Start, Status>
    ensures starts { MatchResult result (IsStart (F.held files.old) (map string_bytes words.now))
        (IsUnstarted (Rose (F.faults files.old) (F.faults files.new)) (F.held files.old)
        (map string_bytes words.now)) }
    ensures line { Wrote (S.written out.old) (S.written out.new)
        (Announces (Rose (S.faults out.old) (S.faults out.new)) result) }
    ensures same { F.held files.new ≡ F.held files.old }
    ensures files_later { F.faults files.old ≤ F.faults files.new }
    ensures out_later { S.faults out.old ≤ S.faults out.new }
{
    match started(alloc, words, files) {
        Ok(start) => Ok(start),
        Err(stop) => Err(conclude(Err(stop), out)),
    }
}

/// The same, but for the line.
fn started<F: Files>(alloc: Global, words: &[String], files: &mut F) -> Result<Start, Stop>
    ensures starts { MatchResult result (IsStart (F.held files.old) (map string_bytes words.now))
        (Refuses (WhyUnstarted (Rose (F.faults files.old) (F.faults files.new)) (F.held files.old)
        (map string_bytes words.now))) }
    ensures same { F.held files.new ≡ F.held files.old }
    ensures later { F.faults files.old ≤ F.faults files.new }
{
    let Some(numbers) = numbers_of(words) else {
        return Err(refused(alloc, Status::Words));
    };
    let schema = schema_there(alloc, files)?;
    Ok(Start {
        schema,
        port: numbers.port,
        workers: numbers.workers,
        connections: numbers.connections,
    })
}

/// The schema that the schema file says, or the refusal.
fn schema_there<F: Files>(alloc: Global, files: &mut F) -> Result<Schema, Stop>
    ensures there { MatchResult result (IsSchemaThere (F.held files.old))
        (Refuses (WhyNoSchema (Rose (F.faults files.old) (F.faults files.new)) (F.held files.old))) }
    ensures same { F.held files.new ≡ F.held files.old }
    ensures later { F.faults files.old ≤ F.faults files.new }
{
    match files.read(alloc, "net.schema") {
        Ok(bytes) => schema_of(alloc, &bytes),
        Err(FileErr::Memory) => Err(Stop::Memory),
        Err(FileErr::Absent) => Err(no_schema(alloc)),
        Err(FileErr::Failed) => Err(refused(alloc, Status::Unavailable { who: Who::Files })),
    }
}

/// The schema that bytes say, or the refusal.
fn schema_of(alloc: Global, bytes: &[u8]) -> Result<Schema, Stop>
    requires { length bytes.now < 2 ^ 32 - 1 }
    ensures { MatchResult result (Says bytes.now) (Refuses (IsFaultOf bytes.now)) }
{
    match read_schema(alloc, bytes) {
        Ok(schema) => Ok(schema),
        Err(SchemaErr::Line { line, cause }) => {
            Err(refused(alloc, Status::Schema { line, cause }))
        }
        Err(SchemaErr::Memory) => Err(Stop::Memory),
    }
}

/// The refusal where there is no schema file.
fn no_schema(alloc: Global) -> Stop
    ensures { IsRefusal [] [] (Status.NoFile (codes "net.schema")) result }
{
    match Name::new(alloc, "net.schema") {
        Ok(name) => refused(alloc, Status::NoFile { name }),
        Err(_) => Stop::Memory,
    }
}
