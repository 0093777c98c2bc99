//! Statements of a database as strings.

ghost use Rattle.std.specs.Prelude.{◌≡◌, ◌<◌, length, IfOk};
ghost use Rattle.mm_scope.specs.Contents.{labels_of};
ghost use Rattle.mm_subst.specs.Statements.{symbol_of, statement_of};

use crate::string::WStr;
use crate::symbol::WSym;
use mm_scope::{Database, StmtId, Sym};
use std::alloc::{AllocError, Global};

/// A symbol of the database: a variable or a constant, as what it is.
pub fn own_symbol(db: &Database, symbol: Sym) -> WSym
    ensures { result ≡ symbol_of db.now symbol.0 }
{
    if db.is_variable(symbol) {
        WSym::Var(symbol.0)
    } else {
        WSym::Const(symbol.0)
    }
}

/// The string of a statement.
#[tactic(auto, unfolding(crate::specs::Statements::statement_of))]
pub fn statement(alloc: Global, db: &Database, id: StmtId) -> Result<WStr, AllocError>
    requires { id.0 < length (labels_of db.now) }
    ensures { IfOk result (λ s. s ≡ statement_of db.now id.0) }
{
    let frame = db.frame(id);
    let mut symbols = Vec::new(alloc);
    for number in frame.conclusion.as_slice() {
        symbols.push(own_symbol(db, Sym(*number)))?;
    }
    Ok(WStr::from_vec(symbols))
}
