//! Statements that are listed.

ghost use Rattle.std.specs.Prelude.{◌≡◌, map};

use mm_scope::StmtId;
use std::marker::Model;

/// Statements of a database, seen as the list of their numbers.
#[derive(Debug, Drop)]
pub struct Statements {
    ids: Vec<StmtId>,
}

impl Model for Statements {
    ghost use Rattle.std.specs.Prelude.{List, ℕ, map};

    ghost Value = { List ℕ };

    ghost view = { λ s. map (λ i. i.0) s.ids.items };
}

impl Statements {
    /// These statements.
    pub fn new(ids: Vec<StmtId>) -> Statements
        ensures { result ≡ map (λ i. i.0) ids.items }
    {
        Statements { ids }
    }

    /// All of them, in order.
    pub fn as_slice(&self) -> &[StmtId]
        ensures { map (λ i. i.0) result.now ≡ self.now }
    {
        self.ids.as_slice()
    }
}
