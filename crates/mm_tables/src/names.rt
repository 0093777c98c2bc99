//! A table of names, in order of first appearance.

ghost use Rattle.std.specs.Prelude.{◌≡◌, ◌+◌, ◌<◌, ◌^◌, [], ◌∷◌, ◌++◌, length, position, slice_get, Some, false, is_some, OnOk, OnErr};
ghost use Rattle.std.specs.List.{list_any};
ghost use Rattle.std.specs.Str.{bytes_eq};
ghost use Rattle.mm_tables.specs.Texts.{with_text};

use indexmap::IndexSet;
use std::alloc::{AllocError, Global};
use std::marker::Model;

/// Names, each once, numbered from 0 in order of first appearance.
#[derive(Drop)]
pub struct Names {
    set: IndexSet<Vec<u8>>,
}

impl Model for Names {
    ghost use Rattle.std.specs.Prelude.{List, ℕ, length, ◌<◌, ◌^◌};
    ghost use Rattle.mm_tables.specs.Texts.{texts};

    ghost Value = { List (List ℕ) };

    ghost view = { λ n. texts n.set.keys };

    ghost invariant = { λ n. length n.set.keys < 2 ^ 32 };
}

impl Names {
    pub fn new(alloc: Global) -> Names
        ensures { result ≡ [] }
    {
        Names {
            set: IndexSet::new(alloc),
        }
    }

    pub fn len(&self) -> usize
        ensures len { result ≡ length self.now }
        ensures small { result < 2 ^ 32 }
    {
        self.set.len()
    }

    /// The number of a name.
    pub fn find(&self, text: &[u8]) -> Option<u32>
        ensures number { result ≡ position (bytes_eq text.now) self.now }
        ensures found { is_some result ≡ list_any (bytes_eq text.now) self.now }
    {
        match self.set.get_index_of(text) {
            Some(number) => Some(number as u32),
            None => None,
        }
    }

    /// The name of a number.
    pub fn text(&self, number: usize) -> &[u8]
        requires { number < length self.now }
        ensures { slice_get self.now number ≡ Some result.now }
    {
        match self.set.get_index(number) {
            Some(name) => name.as_slice(),
            None => unreachable!(),
        }
    }

    /// Adds a name, unless it is there.
    pub fn insert(&mut self, alloc: Global, text: &[u8]) -> Result<(), AllocError>
        ensures ok { OnOk result (self.new ≡ with_text self.old text.now) }
        ensures err { OnErr result (self.new ≡ self.old) }
    {
        if self.set.len() >= u32::MAX as usize {
            return Err(AllocError);
        }
        let name = Vec::from_slice(alloc, text)?;
        self.set.insert(name)?;
        Ok(())
    }
}
