//! Databases that are no stores.
use crate::site::answer;
use pdn_desk_keeper::{DeskKeeper, Kept};
use pdn_store::{SqliteDesk, SqliteSite};
use sqlite::{Connection, MemStore};
use std::alloc::Global;
use std::test::Fail;

/// What is done to a site's store, and what it then answers to a batch of one row.
const SITES: &[(&str, &str)] = &[
    ("", "Ok(New)"),
    ("UPDATE meta SET version = 2", "Err(Failed)"),
    ("DELETE FROM meta", "Err(Failed)"),
    ("INSERT INTO meta VALUES (1)", "Err(Failed)"),
    ("CREATE TABLE more(a)", "Err(Failed)"),
    ("DROP TABLE line", "Err(Failed)"),
    ("CREATE INDEX more ON line(vals)", "Err(Failed)"),
    ("UPDATE batch SET num = x'01'", "Err(Failed)"),
    ("UPDATE line SET at = 2", "Err(Failed)"),
    ("UPDATE line SET vals = x'00'", "Err(Failed)"),
    ("UPDATE line SET vals = 'text'", "Err(Failed)"),
    (
        "UPDATE line SET vals = x'000000000000000766006c00000000000000000000000001'",
        "Err(Failed)",
    ),
    (
        "UPDATE line SET vals = x'0000000100000007666c7500000000000000000000000001'",
        "Err(Failed)",
    ),
    (
        "UPDATE line SET vals = x'0000000000000007666c7500000000000000000000000001'",
        "Ok(New)",
    ),
];

/// A connection that its store had, after a text.
fn changed(conn: Option<Connection<MemStore>>, text: &str) -> Result<Connection<MemStore>, Fail> {
    let mut conn = conn.ok_or("it is open")?;
    conn.execute_batch(text)?;
    Ok(conn)
}

#[test]
fn a_site_refuses_what_is_no_store_of_its(rt: HostRuntime) -> Result<(), Fail> {
    let alloc = rt.alloc();
    for (text, wanted) in SITES {
        let mut site = SqliteSite::adopt(Connection::open_in_memory(alloc)?);
        let (said, _) = answer(alloc, &mut site, 1, &[1])?;
        assert_eq!(rt; said.as_str(), "Ok(New)");
        let mut site = SqliteSite::adopt(changed(site.into_connection(), text)?);
        let (said, _) = answer(alloc, &mut site, 2, &[2])?;
        assert_eq!(rt; said.as_str(), *wanted, "{text}");
    }
    Ok(())
}

/// What is done to the desk's store, and what it then answers.
const DESKS: &[(&str, &str)] = &[
    ("", "Ok(1) Ok(Some(Kept { text: [113], body: [] }))"),
    ("UPDATE desk SET version = 2", "Err(Failed) Err(Failed)"),
    ("INSERT INTO desk VALUES (1, 0)", "Err(Failed) Err(Failed)"),
    ("DELETE FROM desk", "Err(Failed) Err(Failed)"),
    ("DROP TABLE kept", "Err(Failed) Err(Failed)"),
    ("CREATE VIEW more AS SELECT 1", "Err(Failed) Err(Failed)"),
    ("UPDATE kept SET num = x'07'", "Err(Failed) Err(Failed)"),
    (
        "UPDATE desk SET next = -1",
        "Err(Failed) Ok(Some(Kept { text: [113], body: [] }))",
    ),
    (
        "UPDATE desk SET next = 1099511627777",
        "Err(Failed) Ok(Some(Kept { text: [113], body: [] }))",
    ),
    (
        "UPDATE desk SET next = 1099511627776",
        "Ok(1099511627776) Ok(Some(Kept { text: [113], body: [] }))",
    ),
    ("UPDATE kept SET body = 'text'", "Ok(1) Err(Failed)"),
];

#[test]
fn a_desk_refuses_what_is_no_store_of_its(rt: HostRuntime) -> Result<(), Fail> {
    let alloc = rt.alloc();
    for (text, wanted) in DESKS {
        let mut desk = SqliteDesk::adopt(Connection::open_in_memory(alloc)?);
        let kept = Kept {
            text: b"q".to_vec(alloc)?,
            body: Vec::new(alloc),
        };
        assert!(rt; desk.keep(alloc, 0, 7, &kept).is_ok());
        assert!(rt; desk.ticket(alloc).is_ok());
        let mut desk = SqliteDesk::adopt(changed(desk.into_connection(), text)?);
        let said = format!(in alloc; "{:?} {:?}", desk.ticket(alloc), desk.kept(alloc, 0, 7))?;
        assert_eq!(rt; said.as_str(), *wanted, "{text}");
    }
    Ok(())
}
