//! What tables a store's database must have.
use crate::fault::Fault;
use sqlite::{Alter, Connection};

/// The version of a store's tables.
pub(crate) struct Form {
    /// The texts that made its tables, by their names.
    pub tables: &'static [&'static str],
    /// What is put into them at first.
    pub first: &'static str,
    /// Queries that give 1 where what stands in them is of the form.
    pub tests: &'static [&'static str],
}

/// Everything that a text has made in a database.
const MADE: &str = "SELECT sql FROM sqlite_schema WHERE sql IS NOT NULL ORDER BY name";

/// Makes a store's tables in a database that has none; every other database must have these tables, nothing else, and
/// pass the form's tests.
pub(crate) fn make_ready<S: Alter>(conn: &mut Connection<S>, form: &Form) -> Result<(), Fault> {
    let found = conn.query_all(MADE, &[])?;
    if found.is_empty() {
        make(conn, form)?;
    } else if !is_made(found.as_slice(), form.tables)? {
        return Err(Fault::Refused);
    }
    for test in form.tests {
        if !holds(conn, test)? {
            return Err(Fault::Refused);
        }
    }
    Ok(())
}

// All tables and what is put into them at first, or nothing.
fn make<S: Alter>(conn: &mut Connection<S>, form: &Form) -> Result<(), Fault> {
    if !conn.is_autocommit() {
        return Err(Fault::Refused);
    }
    let mut change = conn.transaction();
    for table in form.tables {
        change.execute(table, &[])?;
    }
    change.execute(form.first, &[])?;
    change.commit()?;
    Ok(())
}

// Whether these texts, one a row, are those of the tables.
fn is_made(found: &[sqlite::Row], tables: &[&'static str]) -> Result<bool, Fault> {
    if found.len() != tables.len() {
        return Ok(false);
    }
    for (row, table) in found.iter().zip(tables) {
        let text: String = row.get(0)?;
        if text.as_str() != *table {
            return Ok(false);
        }
    }
    Ok(true)
}

// Whether a test gives 1.
fn holds<S: Alter>(conn: &mut Connection<S>, test: &str) -> Result<bool, Fault> {
    let holds: i64 = conn.query_row(test, &[])?.get(0)?;
    Ok(holds == 1)
}
