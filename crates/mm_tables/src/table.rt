//! The table of symbols, with what is in force of each.

ghost use Rattle.std.specs.Prelude.{◌≡◌, ◌<◌, ◌^◌, [], ◌∷◌, ◌++◌, length, slice_set, slice_get, Some, false, true, OnOk, OnErr};
ghost use Rattle.std.specs.List.{list_any};
ghost use Rattle.std.specs.Str.{bytes_eq};
ghost use Rattle.mm_tables.specs.Tables.{found_in, with_symbol, with_state, standing_at};

use crate::names::Names;
use std::alloc::{AllocError, Global};
use std::marker::Model;

/// Of a symbol: whether it is a constant, is an active variable, has an active `$f`; and the id of the last `$f` that it
/// had, which is the active one where it has one, 0 where it never had any.
#[derive(Clone, Copy, Debug, PartialEq, Eq)]
pub struct Standing {
    pub constant: bool,
    pub active: bool,
    pub floated: bool,
    pub float: u32,
}

/// What is known of a text as a symbol. One that was never declared has the number that it would get.
#[derive(Clone, Copy, Debug, PartialEq, Eq)]
pub struct Found {
    pub number: u32,
    pub known: bool,
    pub standing: Standing,
}

pub const NOTHING: Standing = Standing {
    constant: false,
    active: false,
    floated: false,
    float: 0,
};

/// The symbols ever declared.
#[derive(Drop)]
pub struct SymbolTable {
    names: Names,
    standings: Vec<Standing>,
}

impl Model for SymbolTable {
    ghost use Rattle.std.specs.Prelude.{◌≡◌, length};
    ghost use Rattle.mm_tables.specs.Standings.{Standings};

    ghost Value = { Standings };

    ghost view = { λ s. record { texts = s.names; standings = s.standings.items } };

    ghost invariant = { λ s. length s.names ≡ length s.standings.items };
}

impl SymbolTable {
    pub fn new(alloc: Global) -> SymbolTable
        ensures { result ≡ record { texts = []; standings = [] } }
    {
        SymbolTable {
            names: Names::new(alloc),
            standings: Vec::new(alloc),
        }
    }

    /// The texts of the symbols.
    pub fn names(&self) -> &Names
        ensures { result.now ≡ self.now.texts }
    {
        &self.names
    }

    pub fn find(&self, text: &[u8]) -> Found
        ensures value { result ≡ found_in self.now text.now }
        ensures known { result.known ≡ list_any (bytes_eq text.now) self.now.texts }
    {
        match self.names.find(text) {
            Some(number) => Found {
                number,
                known: true,
                standing: self.standings[number as usize],
            },
            None => Found {
                number: self.names.len() as u32,
                known: false,
                standing: NOTHING,
            },
        }
    }

    /// Adds a symbol; out of memory, the table is as it was.
    pub fn declare(
        &mut self,
        alloc: Global,
        text: &[u8],
        standing: Standing,
    ) -> Result<(), AllocError>
        requires { list_any (bytes_eq text.now) self.old.texts ≡ false }
        ensures ok { OnOk result (self.new ≡ with_symbol self.old text.now standing) }
        ensures err { OnErr result (self.new ≡ self.old) }
    {
        self.standings.reserve(1)?;
        self.names.insert(alloc, text)?;
        self.standings.push(standing)?;
        Ok(())
    }

    /// What is in force of a symbol; nothing where there is none.
    pub fn standing(&self, number: u32) -> Standing
        ensures { result ≡ standing_at self.now number }
    {
        if (number as usize) < self.standings.len() {
            self.standings[number as usize]
        } else {
            NOTHING
        }
    }

    /// Changes what is in force of a symbol, if there is such a one.
    pub fn set(&mut self, number: u32, standing: Standing)
        ensures { self.new ≡ with_state self.old number standing }
    {
        if (number as usize) < self.standings.len() {
            self.standings[number as usize] = standing;
        }
    }
}
