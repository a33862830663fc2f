//! Files in memory.
ghost use Rattle.std.specs.Prelude.{◌≡◌, ◌≤◌, length, map, All, IfSome, MatchResult};
ghost use Rattle.std.specs.String.{string_bytes};
ghost use Rattle.std.specs.List.{find};
ghost use Rattle.std.specs.Option.{option_copied};
ghost use Rattle.std.specs.Str.{bytes_eq};
ghost use Rattle.pdn_base.specs.Outside.{content_of, named};

use crate::calls::Calls;
use crate::{FileErr, Files};
use std::alloc::Global;
use std::marker::Model;

/// Files in memory, whose reads fail at the calls that are listed, by number from 1. With an empty list none fails.
#[derive(Drop)]
pub struct MemFiles {
    files: Vec<(String, Vec<u8>)>,
    calls: Calls,
}

impl Model for MemFiles {
    ghost use Rattle.std.specs.Prelude.{◌≡◌, ◌≤◌, [], length, map, All};
    ghost use Rattle.std.specs.String.{string_bytes};
    ghost use Rattle.pdn_base.specs.Outside.{FilesHeld, named};

    ghost Value = { FilesHeld };

    ghost view = { λ f. record { files = map (λ p. named (string_bytes p.0) p.1.items) f.files.items; calls = f.calls } };

    ghost invariant = { λ f. All (λ p. length p.1.items ≤ 536870912) f.files.items × (f.calls.fail ≡ [] → f.calls.faults ≡ 0) };
}

impl MemFiles {
    ghost use Rattle.pdn_base.specs.Outside.{named, no_calls};

    /// Files by their names, of which no two are the same, and the numbers of the reads that are to fail.
    pub fn new(files: Vec<(String, Vec<u8>)>, fail: Vec<u64>) -> MemFiles
        requires { All (λ p. length p.1.items ≤ 536870912) files.items }
        ensures { result ≡ record {
          files = map (λ p. named (string_bytes p.0) p.1.items)
              files.items;
          calls = no_calls fail.items;
        } }
    {
        MemFiles {
            files,
            calls: Calls::new(fail),
        }
    }
}

// What the first file of this name holds.
fn content<'a>(files: &'a [(String, Vec<u8>)], name: &str) -> Option<&'a [u8]>
    requires { All (λ p. length p.1.items ≤ 536870912) files.now }
    ensures held { option_copied result ≡ content_of
        (map (λ p. named (string_bytes p.0) p.1.items) files.now) name.now }
    ensures small { IfSome result (λ bytes. length bytes.now ≤ 536870912) }
{
    match find(files, name) {
        Some(file) => Some(&file.1),
        None => None,
    }
}

fn find<'a>(files: &'a [(String, Vec<u8>)], name: &str) -> Option<&'a (String, Vec<u8>)>
    requires { All (λ p. length p.1.items ≤ 536870912) files.now }
    ensures first { option_copied result ≡ find (λ p. bytes_eq (string_bytes p.0) name.now)
        files.now }
    ensures small { IfSome result (λ p. length p.now.1.items ≤ 536870912) }
{
    files.iter().find(|file| file.0.as_str() == name)
}

fn copy(alloc: Global, bytes: &[u8]) -> Result<Vec<u8>, FileErr>
    ensures { MatchResult result (λ made. made.items ≡ bytes.now) (λ e. e ≡ FileErr.Memory) }
{
    Ok(bytes.to_vec(alloc)?)
}

impl Files for MemFiles {
    ghost use Rattle.std.specs.Prelude.{◌≡◌, ◌≤◌, ◌↔◌, length, IfOk, IsErrOf, IsTrue, Some, None};
    ghost use Rattle.pdn_base.specs.Outside.{content_of, HasCause, called, fails_next};

    ghost held = { λ f. Some (content_of f.files) };

    ghost faults = { λ f. f.calls.faults };

    fn read(&mut self, alloc: Global, name: &str) -> Result<Vec<u8>, FileErr>
        ensures size { IfOk result (λ bytes. length bytes.items ≤ 536870912) }
        ensures found { IfOk result (λ bytes. content_of self.old.files name.now
            ≡ Some bytes.items) }
        ensures absent { IsErrOf result FileErr.Absent → content_of self.old.files name.now ≡ None }
        ensures same { self.new.files ≡ self.old.files }
        ensures cause { HasCause self.old.calls.faults self.new.calls.faults
            (IsErrOf result FileErr.Failed) }
        ensures counted { self.new.calls ≡ called self.old.calls }
        ensures failed { IsErrOf result FileErr.Failed ↔ IsTrue (fails_next self.old.calls) }
    {
        if self.calls.fails() {
            return Err(FileErr::Failed);
        }
        match content(&self.files, name) {
            Some(bytes) => copy(alloc, bytes),
            None => Err(FileErr::Absent),
        }
    }
}
