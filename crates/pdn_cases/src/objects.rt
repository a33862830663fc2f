//! What lies outside in a case, in memory.
ghost use Rattle.std.specs.Prelude.{◌≤◌, ◌^◌, length, All};

use crate::case::{Case, CaseErr, Fails, NamedFile, Ones, content};
use pdn_base::{Files, MemFiles, MemSink, Site, Word};
use pdn_commands::World;
use pdn_dealer::ListDeal;
use pdn_desk_keeper::MemDesk;
use pdn_keeper::MemSite;
use pdn_schema::{Schema, read_schema};
use pdn_startup::{ImportErr, import_tables, schema_there};
use std::alloc::Global;

/// The files, the sites, the desk and the sink of a case.
pub type Objects = World<MemFiles, MemSite, MemDesk, MemSink>;

/// The objects of a case with these files. No site keeps a row yet.
pub fn objects_of(alloc: Global, fails: &Fails, files: Vec<NamedFile>) -> Result<Objects, CaseErr>
    requires { All (λ f. length f.1.items ≤ 536870912) files.items }
{
    let later_a = imports(&files, "a_");
    let later_b = imports(&files, "b_");
    Ok(World {
        files: MemFiles::new(files, later(alloc, &fails.files, 0)?),
        site_a: MemSite::new(Vec::new(alloc), later(alloc, &fails.site_a, later_a)?),
        site_b: MemSite::new(Vec::new(alloc), later(alloc, &fails.site_b, later_b)?),
        desk: MemDesk::new(next_ticket(fails), later(alloc, &fails.desk, 0)?),
        out: MemSink::new(alloc, fails.room, later(alloc, &fails.sink, 0)?)?,
    })
}

// The desk's next ticket where so many are left.
fn next_ticket(fails: &Fails) -> u64
    ensures { result ≤ 2 ^ 40 }
{
    (1u64 << 40).saturating_sub(fails.tickets)
}

/// Has the sites keep the rows of their files, by the schema of `kept.schema` where that is there.
pub fn import(alloc: Global, objects: &mut Objects, files: Vec<NamedFile>) -> Result<(), ImportErr>
    requires { All (λ f. length f.1.items ≤ 536870912) files.items }
{
    let mut files = MemFiles::new(files, Vec::new(alloc));
    let Some(schema) = schema_kept(alloc, &mut files) else {
        return Ok(());
    };
    import_tables(alloc, Site::A, &schema, &mut files, &mut objects.site_a)?;
    import_tables(alloc, Site::B, &schema, &mut files, &mut objects.site_b)
}

// The schema by which the sites took their rows.
fn schema_kept(alloc: Global, files: &mut MemFiles) -> Option<Schema> {
    match files.read(alloc, "kept.schema") {
        Ok(bytes) => read_schema(alloc, &bytes).ok(),
        Err(_) => schema_there(alloc, files),
    }
}

// How many files begin so: each is a call of its site before the first command.
fn imports(files: &[NamedFile], site: &str) -> u64 {
    files
        .iter()
        .filter(|file| file.0.as_str().starts_with(site))
        .count() as u64
}

// The numbers of the calls that fail, so many calls later.
fn later(alloc: Global, calls: &[u64], later: u64) -> Result<Vec<u64>, CaseErr> {
    let mut numbers = Vec::new(alloc);
    for call in calls {
        numbers.push(call.saturating_add(later))?;
    }
    Ok(numbers)
}

/// The dealer of a tape that has these ones, and else zeros.
pub fn dealer_of_ones(alloc: Global, ones: &[Ones]) -> Result<ListDeal, CaseErr> {
    let mut entries = Vec::new(alloc);
    for section in ones {
        entries.push((
            section.ticket,
            section.unit,
            words_of_ones(alloc, section.count)?,
        ))?;
    }
    Ok(ListDeal::new(entries))
}

fn words_of_ones(alloc: Global, count: u32) -> Result<Vec<Word>, CaseErr> {
    let mut words = Vec::new(alloc);
    for _ in 0..count {
        words.push(Word::from_u64(u64::MAX))?;
    }
    Ok(words)
}
