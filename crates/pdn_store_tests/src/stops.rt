//! Stores whose machine stops at a call of its disks, and stops again while it comes back.
use crate::bounds::Bounds;
use crate::disks::{Disks, Store, back, closed, disks, opened};
use crate::site::answer;
use crate::stopping::Loss;
use pdn_desk_keeper::{DeskKeeper, Kept};
use pdn_keeper::{MemSite, SiteKeeper};
use pdn_store::{SqliteDesk, SqliteSite};
use sqlite::Connection;
use std::alloc::Global;
use std::test::Fail;

/// What is asked of a store.
#[derive(Clone, Copy, Debug)]
enum Work {
    /// So many tickets.
    Tickets(u64),
    /// To keep a batch of two rows.
    Batch,
    /// To keep a call.
    Call,
}

impl Work {
    /// What is asked of a store that came back: of a desk, one ticket more.
    fn again(self) -> Work {
        match self {
            Work::Tickets(_) => Work::Tickets(1),
            Work::Batch => Work::Batch,
            Work::Call => Work::Call,
        }
    }
}

fn take_tickets<K: DeskKeeper>(
    alloc: Global,
    desk: &mut K,
    count: u64,
    bounds: &mut Bounds,
) -> Result<(), Fail> {
    for _ in 0..count {
        match desk.ticket(alloc) {
            Ok(ticket) => {
                bounds.find(ticket)?;
                bounds.answer(ticket.saturating_add(1));
            }
            Err(_) => bounds.refuse(),
        }
    }
    Ok(())
}

/// Has a batch kept. It was there before where it is answered as one that is kept again.
fn keep_batch<K: SiteKeeper>(alloc: Global, site: &mut K, bounds: &mut Bounds) -> Result<(), Fail> {
    let mut memory = MemSite::new(Vec::new(alloc), Vec::new(alloc));
    let (_, whole) = answer(alloc, &mut memory, 7, &[1, 2])?;
    let (said, kept) = answer(alloc, site, 7, &[1, 2])?;
    match said.as_str() {
        "Ok(New)" => bounds.find(0)?,
        "Ok(Again)" => bounds.find(1)?,
        "Err(Failed)" => {
            bounds.refuse();
            return Ok(());
        }
        _ => return Err(Fail::new("nothing else is answered")),
    }
    bounds.answer(1);
    if kept == whole {
        return Ok(());
    }
    bounds.fail();
    if is_read_so_far(whole.as_str(), kept.as_str()) {
        Ok(())
    } else {
        Err(Fail::new("the batch is whole"))
    }
}

/// Whether both tables were read, or none, or the first, before the machine stopped.
fn is_read_so_far(whole: &str, kept: &str) -> bool {
    match kept.strip_suffix("Err(Failed)") {
        Some(first) => first == "Err(Failed) " || whole.starts_with(first),
        None => false,
    }
}

/// Has a call kept, unless it is.
fn keep_call<K: DeskKeeper>(alloc: Global, desk: &mut K, bounds: &mut Bounds) -> Result<(), Fail> {
    let call = Kept {
        text: b"q".to_vec(alloc)?,
        body: b"\x01\x00".to_vec(alloc)?,
    };
    if call.text.len() > 4096 || call.body.len() > 4096 {
        return Err(Fail::new("it is short"));
    }
    match desk.kept(alloc, 0, 7) {
        Ok(None) => match desk.keep(alloc, 0, 7, &call) {
            Ok(()) => {
                bounds.find(0)?;
                bounds.answer(1);
            }
            Err(_) => {
                bounds.find(0)?;
                bounds.refuse();
            }
        },
        Ok(Some(kept)) => {
            bounds.find(u64::from(kept.text == call.text && kept.body == call.body))?;
            bounds.answer(1);
        }
        Err(_) => bounds.fail(),
    }
    Ok(())
}

/// Asks the desk's store of a connection; gives the disks after it.
fn ask_desk(
    alloc: Global,
    work: Work,
    conn: Connection<Store>,
    bounds: &mut Bounds,
) -> Result<Disks, Fail> {
    let mut desk = SqliteDesk::adopt(conn);
    let asked = match work {
        Work::Tickets(count) => take_tickets(alloc, &mut desk, count, bounds),
        _ => keep_call(alloc, &mut desk, bounds),
    };
    let files = closed(desk.into_connection());
    asked?;
    Ok(files.ok_or("the disks are there")?)
}

/// Asks the site's store of a connection; gives the disks after it.
fn ask_site(alloc: Global, conn: Connection<Store>, bounds: &mut Bounds) -> Result<Disks, Fail> {
    let mut site = SqliteSite::adopt(conn);
    let asked = keep_batch(alloc, &mut site, bounds);
    let files = closed(site.into_connection());
    asked?;
    Ok(files.ok_or("the disks are there")?)
}

/// Asks the store on these disks, where it opens; gives the disks after it.
fn ask(alloc: Global, work: Work, files: Disks, bounds: &mut Bounds) -> Result<Disks, Fail> {
    bounds.begin();
    let conn = match opened(alloc, files) {
        Ok(conn) => conn,
        Err(files) => return Ok(files),
    };
    match work {
        Work::Batch => ask_site(alloc, conn, bounds),
        _ => ask_desk(alloc, work, conn, bounds),
    }
}

/// Stops at the first of these calls, comes back, stops at the second, and comes back; whether it came to each stop.
fn stop_twice(
    alloc: Global,
    work: Work,
    loss: Loss,
    first: u64,
    second: u64,
) -> Result<(bool, bool), Fail> {
    let mut bounds = Bounds::new();
    let files = ask(alloc, work, disks(alloc, first)?, &mut bounds)?;
    let stopped = files.log.has_stopped();
    let files = back(alloc, files, loss, second)?;
    let files = ask(alloc, work.again(), files, &mut bounds)?;
    let again = files.log.has_stopped();
    let files = back(alloc, files, loss, u64::MAX)?;
    let _files = ask(alloc, work.again(), files, &mut bounds)?;
    if bounds.is_sure() {
        Ok((stopped, again))
    } else {
        Err(Fail::new("the last asking is answered"))
    }
}

/// Of the calls of a second asking, one in so many is a stop, from another one on behind each first stop: all pairs take minutes.
const EVERY: u64 = 7;

/// How many pairs of stops were tried: at each call of a first asking, and then at calls of a second.
fn pairs(alloc: Global, work: Work, loss: Loss) -> Result<u64, Fail> {
    let mut count = 0u64;
    for first in 0..1000 {
        let mut stopped = false;
        let mut second = first % EVERY;
        for _ in 0..1000 {
            let (once, again) = stop_twice(alloc, work, loss, first, second)?;
            stopped = once;
            count = count.saturating_add(1);
            if !again {
                break;
            }
            second = second.saturating_add(EVERY);
        }
        if !stopped {
            return Ok(count);
        }
    }
    Err(Fail::new("it comes to an end"))
}

// The counts in these tests say how many pairs were tried, and nothing of what a store should do. They are what a first run
// counted, so that a loop that ends early is seen; a store that makes more calls, or fewer, changes them.

/// A ticket that was answered is never given again, and a stop takes at most one.
#[test]
fn no_ticket_is_given_twice_where_unsynced_bytes_are_lost(rt: HostRuntime) -> Result<(), Fail> {
    let tried = pairs(rt.alloc(), Work::Tickets(3), Loss::Unsynced)?;
    assert_eq!(rt; tried, 944);
    Ok(())
}

#[test]
fn no_ticket_is_given_twice_where_nothing_is_lost(rt: HostRuntime) -> Result<(), Fail> {
    let tried = pairs(rt.alloc(), Work::Tickets(3), Loss::Nothing)?;
    assert_eq!(rt; tried, 940);
    Ok(())
}

#[test]
fn a_batch_is_whole_or_not_there_where_unsynced_bytes_are_lost(
    rt: HostRuntime,
) -> Result<(), Fail> {
    let tried = pairs(rt.alloc(), Work::Batch, Loss::Unsynced)?;
    assert_eq!(rt; tried, 974);
    Ok(())
}

#[test]
fn a_batch_is_whole_or_not_there_where_nothing_is_lost(rt: HostRuntime) -> Result<(), Fail> {
    let tried = pairs(rt.alloc(), Work::Batch, Loss::Nothing)?;
    assert_eq!(rt; tried, 967);
    Ok(())
}

#[test]
fn a_call_is_kept_or_not_there_where_unsynced_bytes_are_lost(rt: HostRuntime) -> Result<(), Fail> {
    let tried = pairs(rt.alloc(), Work::Call, Loss::Unsynced)?;
    assert_eq!(rt; tried, 757);
    Ok(())
}

#[test]
fn a_call_is_kept_or_not_there_where_nothing_is_lost(rt: HostRuntime) -> Result<(), Fail> {
    let tried = pairs(rt.alloc(), Work::Call, Loss::Nothing)?;
    assert_eq!(rt; tried, 752);
    Ok(())
}
