//! The desk's store.
use crate::disks::{Disks, closed, disks, opened};
use pdn_desk_keeper::{DeskKeeper, Kept};
use pdn_keeper::KeepErr;
use pdn_store::SqliteDesk;
use std::alloc::Global;
use std::test::Fail;

/// A call of a caller, with what it answers: how many numbers are kept, and the texts that are kept of the number 7.
const KEPT: &[(u32, u64, &str)] = &[
    (0, 7, "Ok(1) Ok(Some(Kept { text: [113], body: [1, 0] }))"),
    (
        0,
        u64::MAX,
        "Ok(2) Ok(Some(Kept { text: [113], body: [1, 0] }))",
    ),
    (1, 8, "Ok(1) Ok(None)"),
];

fn keep(alloc: Global, files: Disks, caller: u32, number: u64) -> Result<(String, Disks), Fail> {
    let mut desk = SqliteDesk::adopt(opened(alloc, files).ok().ok_or("it opens")?);
    let kept = Kept {
        text: b"q".to_vec(alloc)?,
        body: b"\x01\x00".to_vec(alloc)?,
    };
    desk.keep(alloc, caller, number, &kept)
        .ok()
        .ok_or("it is kept")?;
    let again = desk.keep(alloc, caller, number, &kept);
    if again != Err(KeepErr::Failed) {
        return Err(Fail::new("it is kept once"));
    }
    let said = format!(in alloc;
        "{:?} {:?}",
        desk.calls_of(alloc, caller),
        desk.kept(alloc, caller, 7)
    )?;
    Ok((said, closed(desk.into_connection()).ok_or("it closes")?))
}

/// Each call in a program of its own.
#[test]
fn a_call_is_kept_once_and_found_again(rt: HostRuntime) -> Result<(), Fail> {
    let alloc = rt.alloc();
    let mut files = disks(alloc, u64::MAX)?;
    for (caller, number, wanted) in KEPT {
        let (said, after) = keep(alloc, files, *caller, *number)?;
        assert_eq!(rt; said.as_str(), *wanted);
        files = after;
    }
    Ok(())
}
