//! Databases on disks in memory, whose machine stops at a call.
use crate::stopping::{Loss, Stopping};
use sqlite::{Connection, FileStore, Files, Options};
use sqlite_disk::Memory;
use std::alloc::Global;
use std::cell::Cell;
use std::rc::Rc;
use std::test::Fail;

pub(crate) type Store = FileStore<Stopping<Memory>>;

pub(crate) type Disks = Files<Stopping<Memory>>;

/// Empty disks of a machine that stops after so many calls.
pub(crate) fn disks(alloc: Global, calls: u64) -> Result<Disks, Fail> {
    let left = Rc::new(alloc, Cell::new(calls))?;
    let same = left.clone()?;
    Ok(Files {
        log: Stopping::new(Memory::new(alloc), left),
        db: Stopping::new(Memory::new(alloc), same),
    })
}

/// The disks of the machine once it has come back; it stops after so many calls.
pub(crate) fn back(alloc: Global, files: Disks, loss: Loss, calls: u64) -> Result<Disks, Fail> {
    let left = Rc::new(alloc, Cell::new(calls))?;
    let same = left.clone()?;
    let Files { log, db } = files;
    Ok(Files {
        log: log.back(loss, left),
        db: db.back(loss, same),
    })
}

/// A connection to what is on the disks, or the disks.
pub(crate) fn opened(alloc: Global, files: Disks) -> Result<Connection<Store>, Disks> {
    if !files.may_be_used() {
        return Err(files);
    }
    match Connection::open_files(alloc, files, Options::new(7)) {
        Ok(conn) => Ok(conn),
        Err((_, left)) => Err(left.into_files()),
    }
}

/// The disks of a connection.
pub(crate) fn closed(conn: Option<Connection<Store>>) -> Option<Disks> {
    match conn?.close_files() {
        Ok(files) => Some(files),
        Err((_, store)) => Some(store.close()),
    }
}
