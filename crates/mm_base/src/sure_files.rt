ghost use Rattle.std.specs.Prelude.{◌≡◌, [], OnErr, OnOk, IsTrue, option_map};
ghost use Rattle.mm_base.specs.Files.{put};
ghost use Rattle.mm_base.specs.Memory.{find_file};
ghost use Rattle.mm_base.specs.Name.{is_name_lem};

use crate::store::Store;
use crate::{Fetched, Files, FilesFault, Memory};
use std::alloc::Global;
use std::marker::Model;

/// Files in memory that never fail.
#[derive(Debug, Drop)]
pub struct SureFiles {
    store: Store,
    calls: u64,
}

impl Model for SureFiles {
    ghost use Rattle.mm_base.specs.Memory.{SureState};

    ghost Value = { SureState };

    ghost view = { λ s. record { files = s.store; made = s.calls } };
}

impl SureFiles {
    /// No file yet. This takes no memory.
    pub fn new(alloc: Global) -> SureFiles
        ensures { result ≡ record { files = []; made = 0 } }
    {
        SureFiles {
            store: Store::new(alloc),
            calls: 0,
        }
    }

    /// Puts a file, by a call that isn't numbered.
    pub fn add(&mut self, alloc: Global, name: &[u8], bytes: &[u8]) -> Result<(), Memory>
        requires { IsTrue (is_name_lem name.now) }
        ensures ok { OnOk result (find_file self.new.files ≡ put (find_file self.old.files) name.now bytes.now) }
        ensures err { OnErr result (self.new.files ≡ self.old.files) }
        ensures calls { self.new.made ≡ self.old.made }
    {
        self.store.insert(alloc, name, bytes)
    }

    /// The bytes under the name.
    pub fn look(&self, name: &[u8]) -> Option<&[u8]>
        ensures { option_map (λ b. b.now) result ≡ find_file self.now.files name.now }
    {
        self.store.look(name)
    }
}

impl Files for SureFiles {
    ghost use Rattle.std.specs.Prelude.{true, []};
    ghost use Rattle.mm_base.specs.Memory.{find_file};

    ghost tells = { λ s. true };

    ghost lookup = { λ s. find_file s.files };

    ghost faults = { λ s. 0 };

    ghost tells_failing = { λ s. true };

    ghost calls = { λ s. s.made };

    ghost failing = { λ s. [] };

    fn fetch(
        &mut self,
        alloc: Global,
        name: &[u8],
        most: u64,
    ) -> Result<Option<Fetched>, FilesFault> {
        self.calls = self.calls.saturating_add(1);
        Ok(self.store.fetch(alloc, name, most)?)
    }

    fn replace(&mut self, alloc: Global, name: &[u8], bytes: &[u8]) -> Result<(), FilesFault> {
        self.calls = self.calls.saturating_add(1);
        Ok(self.store.insert(alloc, name, bytes)?)
    }
}
