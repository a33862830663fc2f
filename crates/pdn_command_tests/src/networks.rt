//! Networks in memory, and the commands that are given to them.
ghost use Rattle.std.specs.Prelude.{◌≤◌, length, All, IfOk};

use pdn_base::{MemFiles, MemSink, Memory};
use pdn_commands::World;
use pdn_desk_keeper::MemDesk;
use pdn_keeper::MemSite;
use std::alloc::{AllocError, Global};

/// Files, sites that keep nothing, a desk and a sink.
pub type Network = World<MemFiles, MemSite, MemDesk, MemSink>;

/// A file of this name.
pub fn file(alloc: Global, name: &str, text: &str) -> Result<(String, Vec<u8>), AllocError>
    requires { length text.now ≤ 1000 }
    ensures { IfOk result (λ f. length f.1.items ≤ 536870912) }
{
    Ok((
        String::from_str(alloc, name)?,
        text.as_bytes().to_vec(alloc)?,
    ))
}

/// A network with these files, whose sink has this room.
pub fn network(alloc: Global, files: Vec<(String, Vec<u8>)>, room: usize) -> Result<Network, Memory>
    requires { All (λ f. length f.1.items ≤ 536870912) files.items }
{
    Ok(World {
        files: MemFiles::new(files, Vec::new(alloc)),
        site_a: MemSite::new(Vec::new(alloc), Vec::new(alloc)),
        site_b: MemSite::new(Vec::new(alloc), Vec::new(alloc)),
        desk: MemDesk::new(0, Vec::new(alloc)),
        out: MemSink::new(alloc, room, Vec::new(alloc))?,
    })
}

/// The words of a command, which stand between single blanks.
pub fn words(alloc: Global, command: &str) -> Result<Vec<String>, AllocError> {
    let mut words = Vec::new(alloc);
    for word in command.split(' ') {
        words.push(String::from_str(alloc, word)?)?;
    }
    Ok(words)
}
