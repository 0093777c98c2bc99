ghost use Rattle.std.specs.Prelude.{◌≡◌, [], IfOk, OnOk, OnErr, option_map, position};
ghost use Rattle.std.specs.Str.{bytes_eq};
ghost use Rattle.mm_base.specs.Files.{Finds, put};
ghost use Rattle.mm_base.specs.Memory.{find_file};

use crate::{Fetched, Memory};
use std::alloc::Global;
use std::marker::Model;

#[derive(Debug, Drop)]
struct File {
    name: Vec<u8>,
    bytes: Vec<u8>,
}

impl Model for File {
    ghost use Rattle.mm_base.specs.Memory.{NamedFile};

    ghost Value = { NamedFile };

    ghost view = { λ f. record { name = f.name.items; bytes = f.bytes.items } };
}

// Files in memory, no two of one name.
#[derive(Debug, Drop)]
pub struct Store {
    files: Vec<File>,
}

impl Model for Store {
    ghost use Rattle.std.specs.Prelude.{List};
    ghost use Rattle.mm_base.specs.Memory.{NamedFile};

    ghost Value = { List NamedFile };

    ghost view = { λ s. s.files.items };
}

impl Store {
    pub fn new(alloc: Global) -> Store
        ensures { result ≡ [] }
    {
        Store {
            files: Vec::new(alloc),
        }
    }

    // The bytes under the name.
    pub fn look(&self, name: &[u8]) -> Option<&[u8]>
        ensures { option_map (λ b. b.now) result ≡ find_file self.now name.now }
    {
        let file = self.files.iter().find(|f| f.name.as_slice() == name)?;
        Some(&file.bytes)
    }

    // A copy of the file under the name, cut behind `most` bytes.
    pub fn fetch(&self, alloc: Global, name: &[u8], most: u64) -> Result<Option<Fetched>, Memory>
        ensures { IfOk result (Finds (find_file self.now name.now) most) }
    {
        let Some(bytes) = self.look(name) else {
            return Ok(None);
        };
        Ok(Some(cut(alloc, bytes, most)?))
    }

    // Puts the bytes under the name, in place of those that stood there.
    pub fn insert(&mut self, alloc: Global, name: &[u8], bytes: &[u8]) -> Result<(), Memory>
        ensures ok { OnOk result (find_file self.new ≡ put (find_file self.old) name.now bytes.now) }
        ensures err { OnErr result (self.new ≡ self.old) }
    {
        let bytes = bytes.to_vec(alloc)?;
        match self.place(name) {
            Some(place) => {
                let file = &mut self.files[place];
                file.bytes = bytes;
            }
            None => {
                let name = name.to_vec(alloc)?;
                self.files.push(File { name, bytes })?;
            }
        }
        Ok(())
    }

    // Where the file of that name stands.
    fn place(&self, name: &[u8]) -> Option<usize>
        ensures { result ≡ position (λ f. bytes_eq f.name name.now) self.now }
    {
        self.files.iter().position(|f| f.name.as_slice() == name)
    }
}

// The bytes, cut behind `most` of them.
fn cut(alloc: Global, bytes: &[u8], most: u64) -> Result<Fetched, Memory>
    ensures { IfOk result (λ f. Finds (Some bytes.now) most (Some f)) }
{
    let most = most as usize;
    let more = most < bytes.len();
    let bytes = if more { &bytes[..most] } else { bytes };
    Ok(Fetched {
        bytes: bytes.to_vec(alloc)?,
        more,
    })
}
