//! The texts of symbols and of strings.

ghost use Rattle.std.specs.Prelude.{◌≡◌, ◌++◌, OnOk};
ghost use Rattle.mm_shell.specs.Strings.{string_text, wsym_text};

use crate::names::symbol_text;
use itoa::Buffer;
use mm_base::Memory;
use mm_scope::{Database, Sym};
use mm_subst::WSym;

/// Appends a symbol as it stands in the database, or the number of a work variable after `$`.
pub fn push_symbol(database: &Database, symbol: WSym, into: &mut Vec<u8>) -> Result<(), Memory>
    ensures { OnOk result (into.new.items ≡ into.old.items ++ wsym_text database.now symbol) }
{
    match symbol {
        WSym::Const(n) | WSym::Var(n) => into.extend_from_slice(symbol_text(database, Sym(n)))?,
        WSym::Work(n) => {
            let mut buffer = Buffer::new();
            into.push(b'$')?;
            into.extend_from_slice(buffer.format(n).as_bytes())?;
        }
    }
    Ok(())
}

/// Appends the symbols of a string, with a space between each two.
pub fn push_string(database: &Database, symbols: &[WSym], into: &mut Vec<u8>) -> Result<(), Memory>
    ensures { OnOk result (into.new.items ≡ into.old.items ++ string_text database.now symbols.now) }
{
    let [first, others @ ..] = symbols else {
        return Ok(());
    };
    push_symbol(database, *first, into)?;
    for symbol in others {
        into.push(b' ')?;
        push_symbol(database, *symbol, into)?;
    }
    Ok(())
}
