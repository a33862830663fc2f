//! The tables of the desk's store, and a function for each statement on them.
ghost use Rattle.std.specs.Prelude.{◌≤◌, ◌^◌, IfOk, IfSome};
ghost use Rattle.pdn_desk_keeper.specs.Desks.{IsShortText};

use crate::fault::Fault;
use crate::form::Form;
use pdn_desk_keeper::Kept;
use sqlite::{Alter, Connection, params};

/// One row has the next ticket; a call has its caller, its number there, its query's text and the body of the reply.
pub(crate) const FORM: Form = Form {
    tables: &[
        "CREATE TABLE desk(version INTEGER NOT NULL, next INTEGER NOT NULL)",
        "CREATE TABLE kept(caller INTEGER NOT NULL, num BLOB NOT NULL, text BLOB NOT NULL, body BLOB NOT NULL, PRIMARY KEY(caller, num))",
    ],
    first: "INSERT INTO desk(version, next) VALUES (1, 0)",
    tests: &[
        "SELECT COUNT(*) = 1 AND MIN(version) = 1 FROM desk",
        "SELECT COUNT(*) = 0 FROM kept WHERE typeof(num) <> 'blob' OR length(num) <> 8",
    ],
};

/// How many tickets there are: the next one is at most this.
const TICKETS: i64 = 1 << 40;

/// The next ticket, which is taken where it is one.
pub(crate) fn take_ticket<S: Alter>(conn: &mut Connection<S>) -> Result<u64, Fault>
    ensures { IfOk result (λ ticket. ticket ≤ 2 ^ 40) }
{
    let next: i64 = conn.query_row("SELECT next FROM desk", &[])?.get(0)?;
    if next < 0 || next > TICKETS {
        return Err(Fault::Refused);
    }
    if next < TICKETS && raise(conn)? != 1 {
        return Err(Fault::Refused);
    }
    Ok(next as u64)
}

// Makes the next ticket one more; gives how many rows were changed.
fn raise<S: Alter>(conn: &mut Connection<S>) -> Result<usize, Fault> {
    Ok(conn.execute("UPDATE desk SET next = next + 1", &[])?)
}

/// What is kept for a caller's number.
pub(crate) fn find<S: Alter>(
    conn: &mut Connection<S>,
    caller: u32,
    number: u64,
) -> Result<Option<Kept>, Fault>
    ensures { IfOk result (λ found. IfSome found IsShortText) }
{
    let number = number.to_be_bytes();
    let found = conn.query_all(
        "SELECT text, body FROM kept WHERE caller = ?1 AND num = ?2",
        params![caller, number.as_slice()],
    )?;
    match found.first() {
        Some(row) => Ok(Some(kept_of(row)?)),
        None => Ok(None),
    }
}

// The call of a row.
fn kept_of(row: &sqlite::Row) -> Result<Kept, Fault>
    ensures { IfOk result IsShortText }
{
    let text: Vec<u8> = row.get(0)?;
    let body: Vec<u8> = row.get(1)?;
    if text.len() >= u32::MAX as usize || body.len() >= u32::MAX as usize {
        return Err(Fault::Refused);
    }
    Ok(Kept { text, body })
}

/// Keeps a call.
pub(crate) fn put<S: Alter>(
    conn: &mut Connection<S>,
    caller: u32,
    number: u64,
    kept: &Kept,
) -> Result<(), Fault> {
    let number = number.to_be_bytes();
    conn.execute(
        "INSERT INTO kept(caller, num, text, body) VALUES (?1, ?2, ?3, ?4)",
        params![caller, number.as_slice(), &kept.text, &kept.body],
    )?;
    Ok(())
}

/// How many calls of a caller are kept.
pub(crate) fn count<S: Alter>(conn: &mut Connection<S>, caller: u32) -> Result<u64, Fault> {
    let count: i64 = conn
        .query_row(
            "SELECT COUNT(*) FROM kept WHERE caller = ?1",
            params![caller],
        )?
        .get(0)?;
    u64::try_from(count).or(Err(Fault::Refused))
}
