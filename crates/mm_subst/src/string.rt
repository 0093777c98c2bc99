//! Strings of symbols.

ghost use Rattle.std.specs.Prelude.{◌≡◌, IfOk};
ghost use Rattle.mm_subst.specs.Symbols.{has_work};

use crate::symbol::WSym;
use std::alloc::{AllocError, Global};
use std::marker::Model;

/// A string, seen as the list of its symbols.
#[derive(Debug, Drop)]
pub struct WStr {
    symbols: Vec<WSym>,
}

impl Model for WStr {
    ghost use Rattle.std.specs.Prelude.{List};
    ghost use Rattle.mm_subst.specs.declared.symbol.WSym.{WSym};

    ghost Value = { List WSym };

    ghost view = { λ s. s.symbols.items };
}

impl WStr {
    /// The string of these symbols, which may be none.
    pub fn new(alloc: Global, symbols: &[WSym]) -> Result<WStr, AllocError>
        ensures { IfOk result (λ s. s ≡ symbols.now) }
    {
        let symbols = Vec::from_slice(alloc, symbols)?;
        Ok(WStr { symbols })
    }

    /// The string of these symbols. This takes no memory.
    pub fn from_vec(symbols: Vec<WSym>) -> WStr
        ensures { result ≡ symbols.items }
    {
        WStr { symbols }
    }

    /// The symbols themselves.
    pub fn symbols(&self) -> &[WSym]
        ensures { result.now ≡ self.now }
    {
        self.symbols.as_slice()
    }

    /// The same string once more.
    pub fn copy(&self, alloc: Global) -> Result<WStr, AllocError>
        ensures { IfOk result (λ s. s ≡ self.now) }
    {
        WStr::new(alloc, self.symbols())
    }
}

/// Whether a string has a work variable.
pub fn has_work(s: &WStr) -> bool
    ensures { result ≡ has_work s.now }
{
    s.symbols().iter().any(|symbol| symbol.is_work())
}
