//! The desk's tickets and calls in a database.
ghost use Rattle.std.specs.Prelude.{◌≡◌, ◌≤◌, ◌^◌, IfOk, IfSome, None};
ghost use Rattle.pdn_desk_keeper.specs.Desks.{IsShortText, IsCounted};

use crate::desk_tables::{FORM, count, find, put, take_ticket};
use crate::link::Link;
use crate::place::{Adopted, AtPath, Place};
use pdn_desk_keeper::{DeskKeeper, Kept};
use pdn_keeper::KeepErr;
use sqlite::{Alter, Connection, File, FileStore};
use std::alloc::Global;

/// The desk's next ticket and calls in a database, whose tables are made where it has none. It tells nothing of what it
/// holds. Every refusal of the database, and every content that isn't of the store's form, is counted as a fault; want of
/// memory is none.
#[derive(Drop)]
pub struct SqliteDesk<S: Alter, P = Adopted> {
    link: Link<S, P>,
    faults: u64,
}

impl<S: Alter> SqliteDesk<S> {
    /// Over a connection that is open; no call has failed.
    pub fn adopt(connection: Connection<S>) -> SqliteDesk<S>
        ensures { result.faults ≡ 0 }
    {
        SqliteDesk {
            link: Link::new(Adopted, Some(connection)),
            faults: 0,
        }
    }
}

impl SqliteDesk<FileStore<File>, AtPath> {
    /// Over the file at a path, which is opened at the first call, and made where there is none; no call has failed.
    pub fn open_at(rt: HostRuntime, path: &'static str) -> SqliteDesk<FileStore<File>, AtPath>
        ensures { result.faults ≡ 0 }
    {
        SqliteDesk {
            link: Link::new(AtPath::new(rt, path), None),
            faults: 0,
        }
    }
}

impl<S: Alter, P: Drop> SqliteDesk<S, P> {
    /// Its connection, where one is open.
    pub fn into_connection(self) -> Option<Connection<S>> {
        let SqliteDesk { link, faults: _ } = self;
        link.into_connection()
    }

    // Counts a call that failed.
    fn counted<T: Drop>(&mut self, answer: Result<T, KeepErr>) -> Result<T, KeepErr>
        ensures same { result ≡ answer }
        ensures cause { IsCounted self.old.faults self.new.faults result }
    {
        if let Err(KeepErr::Failed) = answer {
            self.faults = self.faults.saturating_add(1);
        }
        answer
    }
}

impl<S: Alter + Drop, P: Place<S>> DeskKeeper for SqliteDesk<S, P> {
    ghost held = { λ _. None };

    ghost faults = { λ d. d.faults };

    fn ticket(&mut self, _alloc: Global) -> Result<u64, KeepErr> {
        let answer = ticket(&mut self.link);
        self.counted(answer)
    }

    fn kept(&mut self, _alloc: Global, caller: u32, number: u64) -> Result<Option<Kept>, KeepErr> {
        let answer = kept(&mut self.link, caller, number);
        self.counted(answer)
    }

    fn keep(
        &mut self,
        _alloc: Global,
        caller: u32,
        number: u64,
        kept: &Kept,
    ) -> Result<(), KeepErr> {
        let answer = keep(&mut self.link, caller, number, kept);
        self.counted(answer)
    }

    fn calls_of(&mut self, _alloc: Global, caller: u32) -> Result<u64, KeepErr> {
        let answer = calls_of(&mut self.link, caller);
        self.counted(answer)
    }
}

fn ticket<S: Alter + Drop, P: Place<S>>(link: &mut Link<S, P>) -> Result<u64, KeepErr>
    ensures { IfOk result (λ ticket. ticket ≤ 2 ^ 40) }
{
    Ok(take_ticket(link.conn(&FORM)?)?)
}

fn kept<S: Alter + Drop, P: Place<S>>(
    link: &mut Link<S, P>,
    caller: u32,
    number: u64,
) -> Result<Option<Kept>, KeepErr>
    ensures { IfOk result (λ found. IfSome found IsShortText) }
{
    Ok(find(link.conn(&FORM)?, caller, number)?)
}

fn keep<S: Alter + Drop, P: Place<S>>(
    link: &mut Link<S, P>,
    caller: u32,
    number: u64,
    kept: &Kept,
) -> Result<(), KeepErr> {
    Ok(put(link.conn(&FORM)?, caller, number, kept)?)
}

fn calls_of<S: Alter + Drop, P: Place<S>>(
    link: &mut Link<S, P>,
    caller: u32,
) -> Result<u64, KeepErr> {
    Ok(count(link.conn(&FORM)?, caller)?)
}
