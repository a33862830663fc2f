//! Files to be read.
ghost use Rattle.std.specs.Prelude.{◌≡◌, ◌≤◌, List, ℕ, length, Option, IfSome, IfOk, IsErrOf};
ghost use Rattle.pdn_base.specs.Outside.{HasCause};
ghost use Rattle.pdn_base.specs.declared.files.FileErr.TheVariants.{Memory};

use std::alloc::{AllocError, Global};

/// Why a file was not read: there is none of that name, the read failed, or memory ran out.
#[derive(Clone, Copy, Debug, PartialEq, Eq)]
pub enum FileErr {
    Absent,
    Failed,
    Memory,
}

impl From<AllocError> for FileErr {
    ghost from_gives = { λ _ e. e ≡ Memory };

    fn from(_: AllocError) -> FileErr {
        FileErr::Memory
    }
}

/// Named files. A read changes nothing of what they hold.
pub trait Files {
    /// What each name holds, where that is told.
    ghost held: { Self → Option (List ℕ → Option (List ℕ)) };

    /// How many reads have failed.
    ghost faults: { Self → ℕ };

    /// The bytes of the file of this name, at most 536,870,912. Absent comes exactly where no file has the name, and
    /// Failed only where the count of faults rose.
    fn read(&mut self, alloc: Global, name: &str) -> Result<Vec<u8>, FileErr>
        ensures size { IfOk result (λ bytes. length bytes.items ≤ 536870912) }
        ensures found { IfSome (held self.old) (λ map.
            IfOk result (λ bytes. map name.now ≡ Some bytes.items)) }
        ensures absent { IfSome (held self.old) (λ map. IsErrOf result FileErr.Absent
            → map name.now ≡ None) }
        ensures same { held self.new ≡ held self.old }
        ensures cause { HasCause (faults self.old) (faults self.new)
            (IsErrOf result FileErr.Failed) };
}
