//! What a command reads first: the schema file, and a file of its own.
ghost use Rattle.std.specs.Prelude.{◌≡◌, ◌≤◌, ◌<◌, ◌-◌, ◌^◌, ℕ, List, [], position, length, IfOk};
ghost use Rattle.std.specs.Str.{bytes_eq};
ghost use Rattle.std.specs.String.{string_bytes};
ghost use Rattle.std.specs.Option.{IfSome};
ghost use Rattle.pdn_schema.specs.Models.{SchemaModel, TableModel};
ghost use Rattle.pdn_sql.specs.Reading.{Says as SaysQueries};
ghost use Rattle.pdn_sql.specs.declared.query.Query.{Query as QueryModel};
ghost use Rattle.pdn_query.specs.Script.{Script, column_name};
ghost use Rattle.pdn_commands.specs.Script.{reading, with_schema, with_inputs, with_queries, table_number};
ghost use Rattle.pdn_query.specs.Walk.{Came};
ghost use Rattle.pdn_query.specs.World.{WorldModel};
ghost use Rattle.pdn_script.specs.Stops.{IsRefusal};

use pdn_base::{FileErr, Memory, Name, Status, Who};
use pdn_query::Outside;
use pdn_schema::{Schema, SchemaErr, Table, read_schema};
use pdn_script::{Stop, refused};
use pdn_sql::{Query, SqlErr, read_queries};
use std::alloc::Global;

/// How many queries a file may have.
pub const MOST_QUERIES: u32 = 16;

/// The schema, and what the other file holds.
#[derive(Drop)]
pub struct Inputs {
    pub schema: Schema,
    pub text: Vec<u8>,
}

/// Reads the schema file and then the file of this name, and then the schema from the first.
pub fn read_inputs<W: Outside>(alloc: Global, file: &str, world: &mut W) -> Result<Inputs, Stop>
    ensures came { (next : SchemaModel → List ℕ → Script) →
        Came (W.state world.old) (W.state world.new) (with_inputs file.now next)
        (λ inputs. next inputs.schema inputs.text.items) result }
    ensures size { IfOk result (λ inputs. length inputs.text.items ≤ 536870912) }
    ensures same { (W.state world.new).told ≡ (W.state world.old).told }
{
    let net = read(alloc, world, "net.schema")?;
    let text = read(alloc, world, file)?;
    let schema = schema_of(alloc, &net)?;
    Ok(Inputs { schema, text })
}

// A file's bytes, or the refusal.
fn read<W: Outside>(alloc: Global, world: &mut W, name: &str) -> Result<Vec<u8>, Stop>
    ensures came { (next : List ℕ → Script) →
        Came (W.state world.old) (W.state world.new) (reading name.now next)
        (λ bytes. next bytes.items) result }
    ensures size { IfOk result (λ bytes. length bytes.items ≤ 536870912) }
    ensures same { (W.state world.new).told ≡ (W.state world.old).told }
{
    match world.read(alloc, name) {
        Ok(bytes) => Ok(bytes),
        Err(FileErr::Memory) => Err(Stop::Memory),
        Err(FileErr::Absent) => Err(no_file(alloc, name)),
        Err(FileErr::Failed) => Err(refused(alloc, Status::Unavailable { who: Who::Files })),
    }
}

// The refusal of a name that no file has.
fn no_file(alloc: Global, name: &str) -> Stop
    ensures { IsRefusal [] [] (Status.NoFile name.now) result }
{
    match Name::new(alloc, name) {
        Ok(name) => refused(alloc, Status::NoFile { name }),
        Err(_) => Stop::Memory,
    }
}

// The schema that bytes say, or the refusal.
fn schema_of(alloc: Global, bytes: &[u8]) -> Result<Schema, Stop>
    requires { length bytes.now < 2 ^ 32 - 1 }
    ensures { (w : WorldModel) (next : SchemaModel → Script) →
        Came w w (with_schema bytes.now next) (λ schema. next schema) result }
{
    match read_schema(alloc, bytes) {
        Ok(schema) => Ok(schema),
        Err(SchemaErr::Line { line, cause }) => {
            Err(refused(alloc, Status::Schema { line, cause }))
        }
        Err(SchemaErr::Memory) => Err(Stop::Memory),
    }
}

/// The queries that bytes say, or the refusal.
pub fn queries_of(alloc: Global, bytes: &[u8]) -> Result<Vec<Query>, Stop>
    requires { length bytes.now < 2 ^ 32 }
    ensures came { (w : WorldModel) (next : List QueryModel → Script) →
        Came w w (with_queries bytes.now next) (λ queries. next queries.items) result }
    ensures says { IfOk result (λ queries. SaysQueries 16 bytes.now queries.items) }
{
    match read_queries(alloc, bytes, MOST_QUERIES) {
        Ok(queries) => Ok(queries),
        Err(SqlErr::At { place, kind }) => Err(refused(alloc, Status::Sql { place, kind })),
        Err(SqlErr::Memory) => Err(Stop::Memory),
    }
}

/// The number of the table of this name.
pub fn table_number(schema: &Schema, name: &str) -> Option<u32>
    ensures is { result ≡ table_number name.now schema.now }
    ensures in_range { IfSome result (λ at. at < length schema.now.tables) }
{
    match table_place(&schema.tables, name) {
        Some(at) => Some(at as u32),
        None => None,
    }
}

fn table_place(tables: &[Table], name: &str) -> Option<usize>
    ensures is { result ≡ position (λ (t : TableModel). bytes_eq t.name name.now) tables.now }
    ensures in_range { IfSome result (λ at. at < length tables.now) }
{
    tables.iter().position(|table| table.name.as_str() == name)
}
