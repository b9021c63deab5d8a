//! A store and a sink that never fail.

ghost use Rattle.std.specs.Prelude.{◌≡◌, Some, length, option_copied};
ghost use Rattle.std.specs.FinMap as map;
ghost use Rattle.outside.specs.FileList.{files_of};

use crate::file_list;
use crate::sink::{Sink, SinkFailed};
use crate::store::{GetFault, PutFault, Store};
use sl_base::Memory;
use std::alloc::Global;
use std::marker::Model;

/// A store in memory that never fails: its count of faults is always 0, so that no answer of it is
/// `Failed`.
#[derive(Debug, Drop)]
pub struct SureStore {
    files: Vec<(String, Vec<u8>)>,
}

impl Model for SureStore {
    ghost use Rattle.std.specs.Coded.{coded_list, coded_ℕ};
    ghost use Rattle.std.specs.FinMap as map;
    ghost use Rattle.outside.specs.Files.{Files};
    ghost use Rattle.outside.specs.FileList.{files_of};

    ghost Value = { Files };

    ghost coded = { map.code (coded_list coded_ℕ) (coded_list coded_ℕ) };

    ghost view = { λ store. files_of store.files.items };
}

impl SureStore {
    /// A store with these names and bytes, where the first file of a name counts. It takes no
    /// memory.
    pub fn new(files: Vec<(String, Vec<u8>)>) -> SureStore
        ensures { result ≡ files_of files.items }
    {
        SureStore { files }
    }

    /// The bytes of a file.
    pub fn file(&self, name: &str) -> Option<&[u8]>
        ensures { option_copied result ≡ map.get self.now name.now }
    {
        file_list::bytes_of(&self.files, name)
    }
}

impl Store for SureStore {
    ghost told = { λ files. Some files };

    ghost faults = { λ _. 0 };

    fn get(&mut self, alloc: Global, name: &str, limit: u64) -> Result<Vec<u8>, GetFault> {
        file_list::get(alloc, &self.files, name, limit)
    }

    fn put(&mut self, alloc: Global, name: &str, bytes: &[u8]) -> Result<(), PutFault> {
        match file_list::put(alloc, &mut self.files, name, bytes) {
            Ok(()) => Ok(()),
            Err(Memory) => Err(PutFault::Memory),
        }
    }
}

/// A sink that takes and drops all that it is given, and never fails: its count of faults is always
/// 0.
#[derive(Clone, Copy, Debug)]
pub struct SureSink;

impl Sink for SureSink {
    ghost use Rattle.std.specs.Prelude.{None};

    ghost written = { λ _. None };

    ghost faults = { λ _. 0 };

    fn write(&mut self, piece: &[u8]) -> Result<usize, SinkFailed>
        ensures { result ≡ Ok (length piece.now) }
    {
        Ok(piece.len())
    }
}
