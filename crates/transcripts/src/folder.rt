//! The files of a folder, and those that are put while a guide runs.

use outside::{FileStore, GetFault, MemoryStore, PutFault, Store};
use std::alloc::Global;
use std::rt::Files;

/// The files of the folder that a guide stands in. What is put is kept in memory and hides the file
/// of the same name, so that nothing is written to the disk.
#[derive(Drop)]
pub struct Folder<'a, F: Files> {
    /// What stands before the name of a file of the folder.
    path: &'a str,
    disk: FileStore<'a, F>,
    kept: MemoryStore,
}

impl<'a, F: Files> Folder<'a, F> {
    /// The folder as it stands on the disk. Its path is empty or ends with `/`.
    pub fn new(alloc: Global, files: &'a F, path: &'a str) -> Folder<'a, F> {
        Folder {
            path,
            disk: FileStore::new(files),
            kept: MemoryStore::new(Vec::new(alloc), Vec::new(alloc)),
        }
    }
}

impl<F: Files> Store for Folder<'_, F> {
    ghost use Rattle.std.specs.Prelude.{None, ◌+◌};

    ghost told = { λ _. None };

    ghost faults = { λ folder. folder.disk + folder.kept.plan.faults };

    fn get(&mut self, alloc: Global, name: &str, limit: u64) -> Result<Vec<u8>, GetFault> {
        match self.kept.get(alloc, name, limit) {
            Err(GetFault::Absent) => {}
            found => return found,
        }
        match format!(in alloc; "{}{name}", self.path) {
            Ok(path) => self.disk.get(alloc, &path, limit),
            Err(_) => Err(GetFault::Memory),
        }
    }

    fn put(&mut self, alloc: Global, name: &str, bytes: &[u8]) -> Result<(), PutFault> {
        self.kept.put(alloc, name, bytes)
    }
}
