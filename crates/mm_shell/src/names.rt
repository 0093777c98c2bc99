//! The texts of what reports name: labels and symbols of a database.

ghost use Rattle.std.specs.Prelude.{◌≡◌};
ghost use Rattle.mm_plain.specs.Labels.{label_at};
ghost use Rattle.mm_shell.specs.Verdicts.{symbol_text};

use crate::find::label_of;
use mm_scope::{Database, StmtId, Sym};

/// The label of a statement; no byte where there is none.
pub fn label_text(database: &Database, id: StmtId) -> &[u8]
    ensures { result.now ≡ label_at database.now id.0 }
{
    if id.0 < database.count() {
        label_of(database, id)
    } else {
        &[]
    }
}

/// The text of a symbol; no byte where there is none.
pub fn symbol_text(database: &Database, symbol: Sym) -> &[u8]
    ensures { result.now ≡ symbol_text database.now symbol.0 }
{
    if symbol.0 < database.symbols() {
        database.symbol(symbol)
    } else {
        &[]
    }
}
