ghost use Rattle.std.specs.Prelude.{◌≡◌, [], IfOk, OnErr, OnOk, IsTrue, option_map};
ghost use Rattle.mm_base.specs.Files.{Finds, put, has_failed};
ghost use Rattle.mm_base.specs.Memory.{find_file, CountsCall};
ghost use Rattle.mm_base.specs.Name.{is_name_lem};

use crate::calls::Calls;
use crate::store::Store;
use crate::{Fetched, Files, FilesFault, Memory};
use std::alloc::Global;
use std::marker::Model;

/// Files in memory that fail at the calls whose numbers they were given.
///
/// The calls of `fetch` and `replace` are numbered together, from 1.
#[derive(Debug, Drop)]
pub struct MemFiles {
    store: Store,
    calls: Calls,
}

impl Model for MemFiles {
    ghost use Rattle.mm_base.specs.Memory.{FilesState};

    ghost Value = { FilesState };

    ghost view = { λ s. record { files = s.store; calls = s.calls } };
}

impl MemFiles {
    /// No file yet.
    pub fn new(alloc: Global, failing: &[u64]) -> Result<MemFiles, Memory>
        ensures files { IfOk result (λ s. s.files ≡ []) }
        ensures calls { IfOk result (λ s. s.calls ≡ record { made = 0; failing = failing.now; faults = 0 }) }
    {
        Ok(MemFiles {
            store: Store::new(alloc),
            calls: Calls::new(alloc, failing)?,
        })
    }

    /// Puts a file, by a call that isn't numbered.
    pub fn add(&mut self, alloc: Global, name: &[u8], bytes: &[u8]) -> Result<(), Memory>
        requires { IsTrue (is_name_lem name.now) }
        ensures ok { OnOk result (find_file self.new.files ≡ put (find_file self.old.files) name.now bytes.now) }
        ensures err { OnErr result (self.new.files ≡ self.old.files) }
        ensures calls { self.new.calls ≡ self.old.calls }
    {
        self.store.insert(alloc, name, bytes)
    }

    /// The bytes under the name.
    pub fn look(&self, name: &[u8]) -> Option<&[u8]>
        ensures { option_map (λ b. b.now) result ≡ find_file self.now.files name.now }
    {
        self.store.look(name)
    }
}

impl Files for MemFiles {
    ghost use Rattle.std.specs.Prelude.{true};
    ghost use Rattle.mm_base.specs.Memory.{find_file};

    ghost tells = { λ s. true };

    ghost lookup = { λ s. find_file s.files };

    ghost faults = { λ s. s.calls.faults };

    ghost tells_failing = { λ s. true };

    ghost calls = { λ s. s.calls.made };

    ghost failing = { λ s. s.calls.failing };

    fn fetch(
        &mut self,
        alloc: Global,
        name: &[u8],
        most: u64,
    ) -> Result<Option<Fetched>, FilesFault>
        ensures found { IfOk result (Finds (find_file self.old.files name.now) most) }
        ensures files { self.new.files ≡ self.old.files }
        ensures calls { CountsCall self.old.calls self.new.calls (has_failed result) }
    {
        if self.calls.count() {
            return Err(FilesFault::Failed);
        }
        Ok(self.store.fetch(alloc, name, most)?)
    }

    fn replace(&mut self, alloc: Global, name: &[u8], bytes: &[u8]) -> Result<(), FilesFault>
        requires { IsTrue (is_name_lem name.now) }
        ensures ok { OnOk result (find_file self.new.files ≡ put (find_file self.old.files) name.now bytes.now) }
        ensures err { OnErr result (self.new.files ≡ self.old.files) }
        ensures calls { CountsCall self.old.calls self.new.calls (has_failed result) }
    {
        if self.calls.count() {
            return Err(FilesFault::Failed);
        }
        Ok(self.store.insert(alloc, name, bytes)?)
    }
}
