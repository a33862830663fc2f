//! Where a store's database is opened.
use sqlite::{Alter, Connection, Error, ErrorCode, File, FileStore};

/// Where a store's database is opened at the store's first call.
pub trait Place<S: Alter>: Drop {
    /// A connection to it, or why there is none.
    fn open(&self) -> Result<Connection<S>, Error>;
}

/// The place of a store that was handed its connection: there is nothing else to open.
#[derive(Drop)]
pub struct Adopted;

impl<S: Alter> Place<S> for Adopted {
    fn open(&self) -> Result<Connection<S>, Error> {
        Err(Error::SqliteFailure(ErrorCode::CannotOpen))
    }
}

/// A file, by its path. It is made where there is none.
#[derive(Drop)]
pub struct AtPath {
    rt: HostRuntime,
    path: &'static str,
}

impl AtPath {
    /// The file at a path of the machine.
    pub fn new(rt: HostRuntime, path: &'static str) -> AtPath {
        AtPath { rt, path }
    }
}

impl Place<FileStore<File>> for AtPath {
    fn open(&self) -> Result<Connection<FileStore<File>>, Error> {
        Connection::open(&self.rt, self.path)
    }
}
