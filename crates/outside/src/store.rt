//! Files by name, however they are kept.

ghost use Rattle.std.specs.Prelude.{◌≡◌, ℕ, ◌≤◌, Option, OnOk, IfOk, IsErrOf, vec_len};
ghost use Rattle.outside.specs.Faults.{Rose};
ghost use Rattle.outside.specs.Files.{Files, HasFile, HasNoFile, HasLongerFile, PutsFile, KeepsOtherFiles};

use std::alloc::Global;

/// Why a file was not got.
#[derive(Clone, Copy, Debug, PartialEq, Eq)]
pub enum GetFault {
    /// No file has this name.
    Absent,
    /// The file has more bytes than the limit.
    TooLong,
    /// The store failed.
    Failed,
    /// Memory could not be had.
    Memory,
}

/// Why a file was not put.
#[derive(Clone, Copy, Debug, PartialEq, Eq)]
pub enum PutFault {
    /// The store failed.
    Failed,
    /// Memory could not be had.
    Memory,
}

/// Files by name. A store may tell what it holds, as one in memory does and one on a disk can't,
/// and counts its failures.
pub trait Store {
    /// What it holds, where it tells.
    ghost told: { Self → Option Files };

    /// How often it has failed. The count never falls, and no caller can raise it.
    ghost faults: { Self → ℕ };

    /// The bytes of a file, of which there are at most `limit`. It changes no file.
    fn get(&mut self, alloc: Global, name: &str, limit: u64) -> Result<Vec<u8>, GetFault>
        ensures within { IfOk result (λ bytes. vec_len bytes ≤ limit) }
        ensures bytes { IfOk result (λ bytes. HasFile (told self.old) name.now bytes.items) }
        ensures absent { IsErrOf result GetFault.Absent → HasNoFile (told self.old) name.now }
        ensures too_long { IsErrOf result GetFault.TooLong
            → HasLongerFile (told self.old) name.now limit }
        ensures failed { IsErrOf result GetFault.Failed → Rose (faults self.old) (faults self.new) }
        ensures same { told self.new ≡ told self.old }
        ensures later { faults self.old ≤ faults self.new };

    /// Gives a name these bytes, in place of those that it had. After `Failed` it may have any
    /// bytes or none, and after `Memory` nothing has changed.
    fn put(&mut self, alloc: Global, name: &str, bytes: &[u8]) -> Result<(), PutFault>
        ensures put { OnOk result (PutsFile (told self.old) (told self.new) name.now bytes.now) }
        ensures failed { IsErrOf result PutFault.Failed → Rose (faults self.old) (faults self.new) }
        ensures others { IsErrOf result PutFault.Failed
            → KeepsOtherFiles (told self.old) (told self.new) name.now }
        ensures memory { IsErrOf result PutFault.Memory → told self.new ≡ told self.old }
        ensures later { faults self.old ≤ faults self.new };
}
