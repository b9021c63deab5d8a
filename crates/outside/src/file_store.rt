//! Files on a disk. What is on it no contract can say: this is the trusted edge.

ghost use Rattle.std.specs.Prelude.{◌≡◌};

use crate::store::{GetFault, PutFault, Store};
use std::alloc::Global;
use std::fs::{File, OpenFile, OpenOptions, Permissions};
use std::io::{ErrorKind, Read, Write};
use std::marker::Model;
use std::path::{Path, PathBuf};
use std::rt::Files;
use std::{fs, io};

/// The files of a file system, by their paths. It counts each failure, and tells nothing of what
/// they hold.
#[derive(Drop)]
pub struct FileStore<'a, F: Files> {
    files: &'a F,
    faults: u64,
}

impl<'a, F: Files> Model for FileStore<'a, F> {
    ghost use Rattle.std.specs.Prelude.{ℕ};

    /// How often it has failed.
    ghost Value = { ℕ };

    ghost view = { λ store. store.faults };
}

impl<'a, F: Files> FileStore<'a, F> {
    pub fn new(files: &'a F) -> FileStore<'a, F>
        ensures { result ≡ 0 }
    {
        FileStore { files, faults: 0 }
    }
}

impl<F: Files> Store for FileStore<'_, F> {
    ghost use Rattle.std.specs.Prelude.{None};

    ghost told = { λ _. None };

    ghost faults = { λ faults. faults };

    fn get(&mut self, alloc: Global, name: &str, limit: u64) -> Result<Vec<u8>, GetFault> {
        let error = match read_file(self.files, alloc, name, limit) {
            Ok(bytes) if bytes.len() as u64 <= limit => return Ok(bytes),
            Ok(_) => return Err(GetFault::TooLong),
            Err(error) => error,
        };
        match error.kind() {
            ErrorKind::NotFound => Err(GetFault::Absent),
            ErrorKind::OutOfMemory => Err(GetFault::Memory),
            _ => {
                self.faults = self.faults.saturating_add(1);
                Err(GetFault::Failed)
            }
        }
    }

    fn put(&mut self, alloc: Global, name: &str, bytes: &[u8]) -> Result<(), PutFault> {
        let Err(error) = replace_file(self.files, alloc, name, bytes) else {
            return Ok(());
        };
        if error.kind() == ErrorKind::OutOfMemory {
            return Err(PutFault::Memory);
        }
        self.faults = self.faults.saturating_add(1);
        Err(PutFault::Failed)
    }
}

/// Reads one byte more than the limit at most, by which a file that is too long is known.
fn read_file<F: Files>(files: &F, alloc: Global, name: &str, limit: u64) -> io::Result<Vec<u8>> {
    let mut bytes = Vec::new(alloc);
    fs::open(files, name)?
        .take(limit.saturating_add(1))
        .read_to_end(&mut bytes)?;
    Ok(bytes)
}

/// The permissions of the file that a name has, and `None` where no file has it. What is no file,
/// or may not be written, is refused, since it is not to be replaced.
fn replaced_permissions<F: Files>(files: &F, name: &str) -> io::Result<Option<Permissions>> {
    let found = match fs::metadata(files, name) {
        Ok(found) => found,
        Err(error) if error.kind() == ErrorKind::NotFound => return Ok(None),
        Err(error) => return Err(error),
    };
    if !found.is_file() {
        return Err(io::Error::from(ErrorKind::InvalidInput));
    }
    let permissions = found.permissions();
    if permissions.readonly() {
        return Err(io::Error::from(ErrorKind::PermissionDenied));
    }
    OpenOptions::new().write(true).open(files, name)?;
    Ok(Some(permissions))
}

/// Writes a new file beside the name, whole, and renames it over the name, so that the name has the
/// old bytes or the new ones at each moment. The new file has the permissions of the one that it
/// replaces. Where a step fails, it is removed again.
fn replace_file<F: Files>(files: &F, alloc: Global, name: &str, bytes: &[u8]) -> io::Result<()> {
    let permissions = replaced_permissions(files, name)?;
    let (new, file) = create_beside(files, alloc, name)?;
    let done = write_whole(file, permissions, bytes).and_then(|()| fs::rename(
        files,
        new.as_path(),
        name,
    ));
    if done.is_err() {
        let _ = fs::remove_file(files, new.as_path());
    }
    done
}

/// Makes a file in the folder of the name that was not there before, with the first number that is
/// free: files that a crash left behind stand in nobody's way.
fn create_beside<F: Files>(files: &F, alloc: Global, name: &str) -> io::Result<(PathBuf, F::File)> {
    for number in 0..u32::MAX {
        let file_name = format!(in alloc; ".sledge-{number}.new")?;
        let new = Path::new(name).with_file_name(alloc, file_name.as_str())?;
        match File::create_new(files, new.as_path()) {
            Ok(file) => return Ok((new, file)),
            Err(error) => {
                if error.kind() != ErrorKind::AlreadyExists {
                    return Err(error);
                }
            }
        }
    }
    Err(io::Error::from(ErrorKind::AlreadyExists))
}

fn write_whole<W: Write + OpenFile + Drop>(
    mut file: W,
    permissions: Option<Permissions>,
    bytes: &[u8],
) -> io::Result<()> {
    if let Some(permissions) = permissions {
        file.set_permissions(permissions)?;
    }
    file.write_all(bytes)?;
    file.sync_all()
}
