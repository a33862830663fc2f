//! What is public of a query: the directories of its segments.
ghost use Rattle.std.specs.Prelude.{◌≡◌, IfOk};

use pdn_base::{Memory, Value};
use std::alloc::Global;
use std::marker::Model;

/// The directories of a segment: at each site the values of its leaves' columns, ascending, each once.
#[derive(Debug, Drop)]
pub struct SegDirs {
    pub a: Vec<Value>,
    pub b: Vec<Value>,
}

impl Model for SegDirs {
    ghost use Rattle.pdn_site.specs.Models.{Dirs};

    ghost Value = { Dirs };

    ghost view = { λ d. record { a = d.a.items; b = d.b.items } };
}

impl SegDirs {
    /// Equal directories.
    pub fn copy(&self, alloc: Global) -> Result<SegDirs, Memory>
        ensures { IfOk result (λ copied. copied ≡ self.now) }
    {
        Ok(SegDirs {
            a: Vec::from_slice(alloc, self.a.as_slice())?,
            b: Vec::from_slice(alloc, self.b.as_slice())?,
        })
    }
}

/// The directories of each segment of a plan, in order. Contracts see the list of them.
#[derive(Debug, Drop)]
pub struct PublicView {
    pub dirs: Vec<SegDirs>,
}

impl Model for PublicView {
    ghost use Rattle.std.specs.Prelude.{List};
    ghost use Rattle.pdn_site.specs.Models.{Dirs};

    ghost Value = { List Dirs };

    ghost view = { λ v. v.dirs.items };
}

impl PublicView {
    /// An equal view.
    pub fn copy(&self, alloc: Global) -> Result<PublicView, Memory>
        ensures { IfOk result (λ copied. copied ≡ self.now) }
    {
        let mut dirs = Vec::new(alloc);
        for pair in &self.dirs {
            dirs.push(pair.copy(alloc)?)?;
        }
        Ok(PublicView { dirs })
    }
}
