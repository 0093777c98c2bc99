//! A substitution applied to a string.

ghost use Rattle.std.specs.Prelude.{◌≡◌};
ghost use Rattle.mm_subst.specs.Applied.{IsApplied};
ghost use Rattle.mm_subst.specs.Substitutions.{applied, value_of};

use crate::fault::TooLongOrMemory;
use crate::string::WStr;
use crate::subst::Subst;
use crate::symbol::WSym;
use mm_scope::MOST_SYMBOLS;
use std::alloc::Global;
use std::slice;

/// What stands for a symbol: the value of a key; any other symbol stands for itself.
fn value<'a>(theta: &'a Subst, symbol: &'a WSym) -> &'a [WSym]
    ensures { result.now ≡ value_of theta.now symbol.now }
{
    match theta.get(*symbol) {
        Some(value) => value.symbols(),
        None => slice::from_ref(symbol),
    }
}

/// The string with each key replaced by its value, all keys at once. It is refused exactly where it has more than
/// `MOST_SYMBOLS` symbols (Metamath book, section 4.1.4).
pub fn apply(alloc: Global, theta: &Subst, s: &WStr) -> Result<WStr, TooLongOrMemory>
    ensures { IsApplied result (applied theta.now s.now) }
{
    let mut out = Vec::new(alloc);
    for symbol in s.symbols() {
        let value = value(theta, symbol);
        if value.len() > MOST_SYMBOLS - out.len() {
            return Err(TooLongOrMemory::TooLong);
        }
        out.extend_from_slice(value)?;
    }
    Ok(WStr::from_vec(out))
}
