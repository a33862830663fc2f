//! The rows that a site keeps when the program begins: those of the CSV files that lie beside the schema.
ghost use Rattle.std.specs.Prelude.{◌≡◌, ◌≤◌, ◌<◌, ◌⊎◌, IfOk, MatchResult, length};
ghost use Rattle.std.specs.String.{string_bytes};
ghost use Rattle.pdn_base.specs.Bounds.{IsShort};
ghost use Rattle.pdn_base.specs.Outside.{Rose};
ghost use Rattle.pdn_schema.specs.Models.{table_of};
ghost use Rattle.pdn_startup.specs.Starting.{file_of_site, TakesFile, TakesFiles, RefusesFile, RefusesFirst, IsFileOr, TookIf};
ghost use Rattle.pdn_startup.specs.declared.imports.ImportErr.TheVariants.{Memory as NoMemory};

use pdn_base::{FileErr, Files, Memory, Site};
use pdn_keeper::{AddErr, CsvErr, SiteKeeper, import_csv};
use pdn_schema::{Schema, Table, read_schema};
use std::alloc::{AllocError, Global};

/// Why the rows were not imported: a file is refused or was not read, or memory ran out.
#[derive(Debug, Drop)]
pub enum ImportErr {
    File(String),
    Memory,
}

impl From<AllocError> for ImportErr {
    ghost from_gives = { λ _ e. e ≡ NoMemory };

    fn from(_: AllocError) -> ImportErr {
        ImportErr::Memory
    }
}

impl From<Memory> for ImportErr {
    ghost from_gives = { λ _ e. e ≡ NoMemory };

    fn from(_: Memory) -> ImportErr {
        ImportErr::Memory
    }
}

/// The schema of the file `net.schema`, where it can be read.
pub fn schema_there<F: Files>(alloc: Global, files: &mut F) -> Option<Schema> {
    let Ok(bytes) = files.read(alloc, "net.schema") else {
        return None;
    };
    match read_schema(alloc, &bytes) {
        Ok(schema) => Some(schema),
        Err(_) => None,
    }
}

/// Has a site take the files `<site>_<table>.csv` that are there as batch 0, in the schema's order, up to the first that is
/// refused. `File` names that one: its rows are none of its table, or the site doesn't take them, or the files or the site
/// failed there.
pub fn import_tables<F: Files, K: SiteKeeper>(
    alloc: Global,
    site: Site,
    schema: &Schema,
    files: &mut F,
    keeper: &mut K,
) -> Result<(), ImportErr>
    // Every file that is there is taken, or the first that is not is named.
    ensures taken { MatchResult result
        (λ _. TakesFiles (F.held files.old) site schema.now.tables (K.batches keeper.old) (K.batches keeper.new))
        (IsFileOr (RefusesFirst (Rose (F.faults files.old) (F.faults files.new) ⊎ Rose (K.faults keeper.old) (K.faults keeper.new))
        (F.held files.old) site schema.now.tables (K.batches keeper.old))) }
    ensures same { F.held files.new ≡ F.held files.old }
    ensures files_later { F.faults files.old ≤ F.faults files.new }
    ensures keeper_later { K.faults keeper.old ≤ K.faults keeper.new }
{
    for at in 0..schema.tables.len() {
        import_table(alloc, site, schema, at as u32, files, keeper)?;
    }
    Ok(())
}

// Has a site take the file of a table, where it is there.
fn import_table<F: Files, K: SiteKeeper>(
    alloc: Global,
    site: Site,
    schema: &Schema,
    table: u32,
    files: &mut F,
    keeper: &mut K,
) -> Result<(), ImportErr>
    requires { table < length schema.now.tables }
    ensures taken { MatchResult result
        (λ _. TakesFile (F.held files.old) site (table_of schema.now table) (K.batches keeper.old) (K.batches keeper.new))
        (IsFileOr (λ name. (name ≡ file_of_site site (table_of schema.now table))
        × RefusesFile (Rose (F.faults files.old) (F.faults files.new) ⊎ Rose (K.faults keeper.old) (K.faults keeper.new))
        (F.held files.old) site (table_of schema.now table) (K.batches keeper.old))) }
    ensures same { F.held files.new ≡ F.held files.old }
    ensures files_later { F.faults files.old ≤ F.faults files.new }
    ensures keeper_later { K.faults keeper.old ≤ K.faults keeper.new }
{
    let name = file_name(alloc, site, schema.table(table))?;
    match files.read(alloc, name.as_str()) {
        Ok(bytes) => {
            if takes(alloc, schema, table, &bytes, keeper)? {
                return Ok(());
            }
            Err(ImportErr::File(name))
        }
        Err(FileErr::Absent) => Ok(()),
        Err(FileErr::Memory) => Err(ImportErr::Memory),
        Err(FileErr::Failed) => Err(ImportErr::File(name)),
    }
}

// The name of the file of a site's rows of a table.
fn file_name(alloc: Global, site: Site, table: &Table) -> Result<String, Memory>
    ensures { IfOk result (λ name. string_bytes name ≡ file_of_site site table.now) }
{
    let table = table.name.as_str();
    Ok(format!(in alloc; "{site}_{table}.csv")?)
}

// Whether a site takes a file's rows as the table's batch 0.
fn takes<K: SiteKeeper>(
    alloc: Global,
    schema: &Schema,
    table: u32,
    bytes: &[u8],
    keeper: &mut K,
) -> Result<bool, Memory>
    requires in_range { table < length schema.now.tables }
    requires short { IsShort bytes.now }
    ensures taken { IfOk result (λ took. TookIf took
        (Rose (K.faults keeper.old) (K.faults keeper.new)) (table_of schema.now
        table) bytes.now (K.batches keeper.old) (K.batches keeper.new)) }
    ensures later { K.faults keeper.old ≤ K.faults keeper.new }
{
    let rows = match import_csv(alloc, schema, table, bytes) {
        Ok(rows) => rows,
        Err(CsvErr::Memory) => return Err(Memory),
        Err(CsvErr::At { .. }) => return Ok(false),
    };
    match keeper.add_batch(alloc, schema, table, 0, &rows) {
        Ok(_) => Ok(true),
        Err(AddErr::Memory) => Err(Memory),
        Err(_) => Ok(false),
    }
}
