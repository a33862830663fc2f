//! The files of the machine.
ghost use Rattle.std.specs.Prelude.{◌≡◌, ◌≤◌, None, IfOk, length};

use crate::{FileErr, Files};
use std::alloc::Global;
use std::fs::OpenFile;
use std::io::{ErrorKind, Read};
use std::{fs, io, rt};

const MOST_BYTES: u64 = 536_870_912;

/// The files of the machine, by their paths. They tell nothing of what they hold. A file of more than 536,870,912
/// bytes is a fault, found by its size before it is read.
#[derive(Drop)]
pub struct RealFiles<R: rt::Files + Drop> {
    rt: R,
    faults: u64,
}

impl<R: rt::Files + Drop> RealFiles<R> {
    /// The files that this runtime reaches; no read has failed.
    pub fn new(rt: R) -> RealFiles<R>
        ensures { ⟦<RealFiles<R> as Files>⟧.faults result ≡ 0 }
    {
        RealFiles { rt, faults: 0 }
    }
}

impl<R: rt::Files + Drop> Files for RealFiles<R> {
    ghost held = { λ _. None };

    ghost faults = { λ f. f.faults };

    fn read(&mut self, alloc: Global, name: &str) -> Result<Vec<u8>, FileErr> {
        let answer = read_whole(alloc, &self.rt, name);
        if let Err(FileErr::Failed) = answer {
            self.faults = self.faults.saturating_add(1);
        }
        answer
    }
}

// The whole file. One that grows while it is read is read up to the first byte that is too many.
fn read_whole<R: rt::Files>(alloc: Global, rt: &R, name: &str) -> Result<Vec<u8>, FileErr>
    ensures { IfOk result (λ bytes. length bytes.items ≤ 536870912) }
{
    let file = fs::open(rt, name)?;
    if file.metadata()?.len() > MOST_BYTES {
        return Err(FileErr::Failed);
    }
    let mut bytes = Vec::new(alloc);
    file.take(MOST_BYTES + 1).read_to_end(&mut bytes)?;
    if bytes.len() as u64 > MOST_BYTES {
        return Err(FileErr::Failed);
    }
    Ok(bytes)
}

impl From<io::Error> for FileErr {
    fn from(error: io::Error) -> FileErr {
        match error.kind() {
            ErrorKind::NotFound => FileErr::Absent,
            ErrorKind::OutOfMemory => FileErr::Memory,
            _ => FileErr::Failed,
        }
    }
}
