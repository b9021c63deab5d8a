//! A store in memory.

ghost use Rattle.std.specs.Prelude.{◌≡◌, ◌≤◌, ◌↔◌, if◌then◌else◌, IfOk, IsErrOf, IsTrue, is_ok, vec_len, option_copied};
ghost use Rattle.std.specs.FinMap as map;
ghost use Rattle.outside.specs.FaultPlan.{new_plan, fails_next, counted};
ghost use Rattle.outside.specs.Files.{HasFile, HasNoFile, HasLongerFile};
ghost use Rattle.outside.specs.FileList.{files_of};

use crate::file_list;
use crate::planned_faults::PlannedFaults;
use crate::store::{GetFault, PutFault, Store};
use sl_base::Memory;
use std::alloc::Global;
use std::marker::Model;

/// A store that keeps its files in memory, and fails where it is planned to.
#[derive(Debug, Drop)]
pub struct MemoryStore {
    files: Vec<(String, Vec<u8>)>,
    plan: PlannedFaults,
}

impl Model for MemoryStore {
    ghost use Rattle.outside.specs.InMemory.{StoreState, store_code};
    ghost use Rattle.outside.specs.FileList.{files_of};

    ghost Value = { StoreState };

    ghost coded = { store_code };

    ghost view = { λ store. record { files = files_of store.files.items; plan = store.plan } };
}

impl MemoryStore {
    /// A store with these names and bytes, where the first file of a name counts. The calls with
    /// these numbers are to fail, where the first get or put is 1. It takes no memory.
    pub fn new(files: Vec<(String, Vec<u8>)>, failing: Vec<u32>) -> MemoryStore
        ensures { result ≡ record { files = files_of files.items; plan = new_plan failing.items } }
    {
        MemoryStore {
            files,
            plan: PlannedFaults::new(failing),
        }
    }

    /// The bytes of a file. This is no call of the store: it counts and changes nothing.
    pub fn file(&self, name: &str) -> Option<&[u8]>
        ensures { option_copied result ≡ map.get self.now.files name.now }
    {
        file_list::bytes_of(&self.files, name)
    }
}

impl Store for MemoryStore {
    ghost use Rattle.std.specs.Prelude.{Some};

    ghost told = { λ store. Some store.files };

    ghost faults = { λ store. store.plan.faults };

    fn get(&mut self, alloc: Global, name: &str, limit: u64) -> Result<Vec<u8>, GetFault>
        // A call fails exactly where it is planned to.
        ensures fails { IsErrOf result GetFault.Failed ↔ IsTrue (fails_next self.old.plan) }
        ensures after { self.new ≡ record self.old {
          plan = counted self.old.plan (fails_next self.old.plan);
        } }

        ensures within { IfOk result (λ bytes. vec_len bytes ≤ limit) }
        ensures bytes { IfOk result (λ bytes. HasFile (Some self.old.files) name.now bytes.items) }
        ensures absent { IsErrOf result GetFault.Absent → HasNoFile (Some self.old.files) name.now }
        ensures too_long { IsErrOf result GetFault.TooLong
            → HasLongerFile (Some self.old.files) name.now limit }
        ensures later { self.old.plan.faults ≤ self.new.plan.faults }
    {
        if self.plan.next_fails(false) {
            return Err(GetFault::Failed);
        }
        file_list::get(alloc, &self.files, name, limit)
    }

    fn put(&mut self, alloc: Global, name: &str, bytes: &[u8]) -> Result<(), PutFault>
        // A call fails exactly where it is planned to, and then changes no file.
        ensures fails { IsErrOf result PutFault.Failed ↔ IsTrue (fails_next self.old.plan) }
        ensures after { self.new ≡ record self.old {
          files =
              if is_ok result then map.insert self.old.files name.now bytes.now
              else self.old.files;
          plan = counted self.old.plan (fails_next self.old.plan);
        } }
        ensures later { self.old.plan.faults ≤ self.new.plan.faults }
    {
        if self.plan.next_fails(false) {
            return Err(PutFault::Failed);
        }
        match file_list::put(alloc, &mut self.files, name, bytes) {
            Ok(()) => Ok(()),
            Err(Memory) => Err(PutFault::Memory),
        }
    }
}
