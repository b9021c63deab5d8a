//! Files of the store, and how a command ends without them.

ghost use Rattle.std.specs.Prelude.{◌≡◌, ◌≤◌, vec_len, IfOk, IfErr, IfSome, IsErrOf};
ghost use Rattle.outside.specs.Faults.{Rose};
ghost use Rattle.sledge_top.specs.Files.{file_of};
ghost use Rattle.sledge_top.specs.Views.{Comes, IsLaterFailure};

use crate::failure::Failure;
use outside::{GetFault, Store};
use report::Refusal;
use sl_base::Seq;
use std::alloc::{AllocError, Global};

/// A file's name, for the line that tells of it.
fn name_of(alloc: Global, name: &str) -> Result<Seq<u8>, AllocError>
    ensures { IfOk result (λ copy. copy ≡ name.now) }
{
    Ok(Seq::from_vec(Vec::from_slice(alloc, name.as_bytes())?))
}

/// The bytes of a file, of which there are at most `limit`.
pub fn file_of<S: Store>(
    alloc: Global,
    store: &mut S,
    name: &str,
    limit: u64,
) -> Result<Vec<u8>, Failure>
    ensures file { IfSome (S.told store.old) (λ files.
        Comes (λ bytes. bytes.items) result (file_of files name.now limit)) }
    ensures failed { IsErrOf result Failure.StoreFault
        → Rose (S.faults store.old) (S.faults store.new) }
    ensures within { IfOk result (λ bytes. vec_len bytes ≤ limit) }
    ensures later { IfErr result IsLaterFailure }
    ensures faults { S.faults store.old ≤ S.faults store.new }
    ensures same { S.told store.new ≡ S.told store.old }
{
    match store.get(alloc, name, limit) {
        Ok(bytes) => Ok(bytes),
        Err(GetFault::Absent) => {
            let name = name_of(alloc, name)?;
            Err(Failure::Refused(Refusal::Absent { name }))
        }
        Err(GetFault::TooLong) => {
            let name = name_of(alloc, name)?;
            Err(Failure::Refused(Refusal::TooLong { limit, name }))
        }
        Err(GetFault::Failed) => Err(Failure::StoreFault),
        Err(GetFault::Memory) => Err(Failure::Memory),
    }
}
