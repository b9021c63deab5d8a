//! Files kept as a list, of which the first one of a name counts.

ghost use Rattle.std.specs.Prelude.{◌≡◌, ◌≢◌, ◌≤◌, OnOk, OnErr, IfOk, IsErrOf, MatchOption, length, vec_len, option_copied};
ghost use Rattle.std.specs.FinMap as map;
ghost use Rattle.outside.specs.Files.{HasFile, HasNoFile, HasLongerFile};
ghost use Rattle.outside.specs.FileList.{files_of, NoneNamed, IsFirstNamed};

use crate::store::GetFault;
use sl_base::Memory;
use std::alloc::Global;

/// The bytes of the first file of this name.
pub fn bytes_of<'a>(files: &'a [(String, Vec<u8>)], name: &str) -> Option<&'a [u8]>
    ensures { option_copied result ≡ map.get (files_of files.now) name.now }
{
    let index = index_of(files, name)?;
    Some(&files[index].1)
}

/// A copy of the first file of this name.
pub fn get(
    alloc: Global,
    files: &[(String, Vec<u8>)],
    name: &str,
    limit: u64,
) -> Result<Vec<u8>, GetFault>
    ensures within { IfOk result (λ bytes. vec_len bytes ≤ limit) }
    ensures bytes { IfOk result
        (λ bytes. HasFile (Some (files_of files.now)) name.now bytes.items) }
    ensures absent { IsErrOf result GetFault.Absent
        → HasNoFile (Some (files_of files.now)) name.now }
    ensures too_long { IsErrOf result GetFault.TooLong
        → HasLongerFile (Some (files_of files.now)) name.now limit }
    ensures never_failed { result ≢ Err GetFault.Failed }
{
    let Some(bytes) = bytes_of(files, name) else {
        return Err(GetFault::Absent);
    };
    if bytes.len() as u64 > limit {
        return Err(GetFault::TooLong);
    }
    match Vec::from_slice(alloc, bytes) {
        Ok(copy) => Ok(copy),
        Err(_) => Err(GetFault::Memory),
    }
}

/// Gives a name these bytes.
pub fn put(
    alloc: Global,
    files: &mut Vec<(String, Vec<u8>)>,
    name: &str,
    bytes: &[u8],
) -> Result<(), Memory>
    ensures ok { OnOk result
        (files_of files.new.items ≡ map.insert (files_of files.old.items) name.now bytes.now) }
    ensures err { OnErr result (files.new.items ≡ files.old.items) }
{
    let bytes = Vec::from_slice(alloc, bytes)?;
    match index_of(files, name) {
        Some(index) => files[index].1 = bytes,
        None => files.push((String::from_str(alloc, name)?, bytes))?,
    }
    Ok(())
}

fn index_of(files: &[(String, Vec<u8>)], name: &str) -> Option<usize>
    ensures { MatchOption result
        (NoneNamed files.now name.now (length files.now))
        (IsFirstNamed files.now name.now) }
{
    for (index, file) in files.iter().enumerate() {
        if file.0.as_str() == name {
            return Some(index);
        }
    }
    None
}
