//! Calls that a keeper keeps.
use pdn_desk_keeper::{DeskKeeper, Kept, MemDesk};
use pdn_keeper::KeepErr;
use std::alloc::Global;
use std::test::Fail;

/// A call of a keeper.
#[derive(Clone, Copy)]
enum Ask {
    /// Keep this text and this body for a caller's number, where nothing is kept yet.
    Keep(u32, u64, &'static str, &'static str),
    Find(u32, u64),
    Count(u32),
}

/// Why a call failed, as a text.
fn failed(alloc: Global, error: KeepErr) -> Result<String, Fail> {
    Ok(match error {
        KeepErr::Failed => format!(in alloc; "failed")?,
        KeepErr::Memory => format!(in alloc; "memory")?,
    })
}

/// What is kept of a call, as a text.
fn said(alloc: Global, kept: &Kept) -> Result<String, Fail> {
    let text = str::from_utf8(&kept.text).ok().ok_or("it is a text")?;
    let body = str::from_utf8(&kept.body).ok().ok_or("it is a text")?;
    Ok(format!(in alloc; "{text} {body}")?)
}

fn find<K: DeskKeeper>(
    alloc: Global,
    keeper: &mut K,
    caller: u32,
    number: u64,
) -> Result<String, Fail> {
    match keeper.kept(alloc, caller, number) {
        Ok(Some(kept)) => said(alloc, &kept),
        Ok(None) => Ok(format!(in alloc; "none")?),
        Err(error) => failed(alloc, error),
    }
}

fn keep<K: DeskKeeper>(
    alloc: Global,
    keeper: &mut K,
    caller: u32,
    number: u64,
    kept: &Kept,
) -> Result<String, Fail> {
    if kept.text.len() > 4096 || kept.body.len() > 4096 {
        return Ok(format!(in alloc; "long")?);
    }
    match keeper.kept(alloc, caller, number) {
        Ok(None) => match keeper.keep(alloc, caller, number, kept) {
            Ok(()) => Ok(format!(in alloc; "kept")?),
            Err(error) => failed(alloc, error),
        },
        Ok(Some(_)) => Ok(format!(in alloc; "there")?),
        Err(error) => failed(alloc, error),
    }
}

/// What a keeper answers, as a text.
fn answer<K: DeskKeeper>(alloc: Global, keeper: &mut K, ask: Ask) -> Result<String, Fail> {
    match ask {
        Ask::Keep(caller, number, text, body) => {
            let kept = Kept {
                text: text.as_bytes().to_vec(alloc)?,
                body: body.as_bytes().to_vec(alloc)?,
            };
            keep(alloc, keeper, caller, number, &kept)
        }
        Ask::Find(caller, number) => find(alloc, keeper, caller, number),
        Ask::Count(caller) => match keeper.calls_of(alloc, caller) {
            Ok(count) => Ok(format!(in alloc; "{count}")?),
            Err(error) => failed(alloc, error),
        },
    }
}

/// Calls of one keeper, and what each answers.
const KEPT: &[(Ask, &str)] = &[
    (Ask::Count(0), "0"),
    (Ask::Find(0, 7), "none"),
    (Ask::Keep(0, 7, "SELECT", "[3]"), "kept"),
    (Ask::Find(0, 7), "SELECT [3]"),
    (Ask::Find(0, 8), "none"),
    (Ask::Find(1, 7), "none"),
    (Ask::Keep(0, 7, "OTHER", "[4]"), "there"),
    (Ask::Find(0, 7), "SELECT [3]"),
    (Ask::Keep(1, 7, "OTHER", ""), "kept"),
    (Ask::Keep(0, 18446744073709551615, "", "[5]"), "kept"),
    (Ask::Find(1, 7), "OTHER "),
    (Ask::Find(0, 18446744073709551615), " [5]"),
    (Ask::Count(0), "2"),
    (Ask::Count(1), "1"),
    (Ask::Count(2), "0"),
];

/// Calls of one keeper whose calls 1, 3 and 5 fail, and what each answers. To keep takes two calls.
const FAILING: &[(Ask, &str)] = &[
    (Ask::Keep(0, 7, "SELECT", "[3]"), "failed"),
    (Ask::Keep(0, 7, "SELECT", "[3]"), "failed"),
    (Ask::Find(0, 7), "none"),
    (Ask::Count(0), "failed"),
    (Ask::Count(0), "0"),
    (Ask::Keep(0, 7, "SELECT", "[3]"), "kept"),
    (Ask::Find(0, 7), "SELECT [3]"),
];

#[test]
fn a_kept_call_is_found_by_its_caller_and_its_number(rt: HostRuntime) -> Result<(), Fail> {
    let alloc = rt.alloc();
    let mut desk = MemDesk::new(5, Vec::new(alloc));
    for (ask, wanted) in KEPT {
        let answer = answer(alloc, &mut desk, *ask)?;
        assert_eq!(rt; answer.as_str(), *wanted);
    }
    assert_eq!(rt; desk.next(), 5);
    Ok(())
}

#[test]
fn a_failed_call_keeps_nothing_and_loses_nothing(rt: HostRuntime) -> Result<(), Fail> {
    let alloc = rt.alloc();
    let mut desk = MemDesk::new(5, Vec::from_slice(alloc, &[1, 3, 5])?);
    for (ask, wanted) in FAILING {
        let answer = answer(alloc, &mut desk, *ask)?;
        assert_eq!(rt; answer.as_str(), *wanted);
    }
    assert_eq!(rt; desk.next(), 5);
    Ok(())
}
