//! What refusals and reports borrow, as contracts see it.

ghost use Rattle.std.specs.Prelude.{◌≡◌};
ghost use Rattle.mm_plain.specs.Numbers.{HasOwnLabels};

use mm_scope::Database;
use mm_tree::Tree;
use std::marker::Model;

/// A word of a command, or a label of the database. It is seen as its bytes.
#[derive(Drop)]
pub struct Word<'a> {
    bytes: &'a [u8],
}

impl<'a> Model for Word<'a> {
    ghost use Rattle.std.specs.Prelude.{List, ℕ};

    ghost Value = { List ℕ };

    ghost view = { λ w. w.bytes.now };
}

impl<'a> Word<'a> {
    /// A word of these bytes.
    pub fn new(bytes: &'a [u8]) -> Word<'a>
        ensures { result ≡ bytes.now }
    {
        Word { bytes }
    }

    /// Its bytes.
    pub fn bytes(&self) -> &'a [u8]
        ensures { result.now ≡ self.now }
    {
        self.bytes
    }
}

/// A database that a report speaks of. It is seen as its bytes.
#[derive(Drop)]
pub struct DatabaseRef<'a> {
    database: &'a Database,
}

impl<'a> Model for DatabaseRef<'a> {
    ghost use Rattle.std.specs.Prelude.{List, ℕ};

    ghost Value = { List ℕ };

    ghost view = { λ r. r.database.now };
}

impl<'a> DatabaseRef<'a> {
    /// This database.
    pub fn new(database: &'a Database) -> DatabaseRef<'a>
        ensures { result ≡ database.now }
    {
        DatabaseRef { database }
    }

    /// The database.
    pub fn database(&self) -> &'a Database
        ensures { result.now ≡ self.now }
    {
        self.database
    }
}

/// A proof tree that a report speaks of, with the database whose statements its steps name. It is seen as the bytes of the
/// database and the tree.
#[derive(Drop)]
pub struct ProofRef<'a> {
    database: &'a Database,
    tree: &'a Tree,
}

impl<'a> Model for ProofRef<'a> {
    ghost use Rattle.std.specs.Prelude.{List, ℕ};
    ghost use Rattle.std.specs.Coded.{codes};
    ghost use Rattle.mm_plain.specs.Numbers.{HasOwnLabels};
    ghost use Rattle.mm_plain.specs.declared.plain.Plain.{Plain};
    ghost use Rattle.mm_plain.specs.contracts.plain.Plain as e;

    ghost Value = { List ℕ × Plain };

    ghost coded = { Prim.hlevel (codes, e.the_row.coded) };

    ghost view = { λ r. (r.database.now, r.tree.now.proof.plain) };

    ghost invariant = { λ r. HasOwnLabels r.database.now r.tree.now.proof.plain };
}

impl<'a> ProofRef<'a> {
    /// This tree over this database.
    pub fn new(database: &'a Database, tree: &'a Tree) -> ProofRef<'a>
        requires { HasOwnLabels database.now tree.now.proof.plain }
        ensures { result ≡ (database.now, tree.now.proof.plain) }
    {
        ProofRef { database, tree }
    }

    /// The database.
    pub fn database(&self) -> &'a Database
        ensures { result.now ≡ self.now.0 }
    {
        self.database
    }

    /// The tree. Its steps name statements of the database.
    pub fn tree(&self) -> &'a Tree
        ensures plain { result.now.proof.plain ≡ self.now.1 }
        ensures own { HasOwnLabels self.now.0 result.now.proof.plain }
    {
        self.tree
    }
}
