ghost use Rattle.std.specs.Prelude.{◌≡◌, ◌<◌, ◌≤◌, ℕ, List, Bool, Option, length, IfOk, IsTrue};
ghost use Rattle.mm_base.specs.Outside.{CountsFaults};
ghost use Rattle.mm_base.specs.Files.{Numbers, KeepsMap, FindsSome, Puts, has_failed};
ghost use Rattle.mm_base.specs.Name.{is_name_lem};

use crate::FilesFault;
use std::alloc::Global;

/// The bytes of a file, or its first bytes where it has more than were asked for.
#[derive(Debug, Drop)]
pub struct Fetched {
    pub bytes: Vec<u8>,
    /// Whether the file has more bytes than these.
    pub more: bool,
}

/// A map from names to bytes.
///
/// Its calls are numbered together, from 1. A call whose number would pass the greatest u64 has none.
pub trait Files {
    /// Whether it tells the map.
    ghost tells: { Self → Bool };

    /// The bytes under a name, where it tells them.
    ghost lookup: { Self → List ℕ → Option (List ℕ) };

    /// How often it has failed, up to the greatest u64.
    ghost faults: { Self → ℕ };

    /// Whether it tells the number of calls made and which of them fail.
    ghost tells_failing: { Self → Bool };

    /// How many calls were made, up to the greatest u64, where it tells them.
    ghost calls: { Self → ℕ };

    /// The numbers of the calls that fail, where it tells them.
    ghost failing: { Self → List ℕ };

    /// The file under a name, cut behind `most` bytes, or None where there is no such file.
    fn fetch(
        &mut self,
        alloc: Global,
        name: &[u8],
        most: u64,
    ) -> Result<Option<Fetched>, FilesFault>
        ensures found { IfOk result (FindsSome (IsTrue (tells self.new)) (lookup self.old name.now) most) }
        ensures kept { KeepsMap tells lookup self.old self.new }
        ensures cause { CountsFaults (has_failed result) (faults self.old) (faults self.new) }
        ensures number { Numbers tells_failing calls failing self.old self.new (has_failed result) };

    /// Puts the whole file under the name, in place of the one that stood there.
    ///
    /// Where it answers a fault, the files are as they were.
    fn replace(&mut self, alloc: Global, name: &[u8], bytes: &[u8]) -> Result<(), FilesFault>
        requires { IsTrue (is_name_lem name.now) }
        ensures put { Puts tells lookup self.old self.new result name.now bytes.now }
        ensures cause { CountsFaults (has_failed result) (faults self.old) (faults self.new) }
        ensures number { Numbers tells_failing calls failing self.old self.new (has_failed result) };
}
