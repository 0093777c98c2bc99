//! What became of the proofs that were checked.

ghost use Rattle.std.specs.Prelude.{◌≡◌, ◌∷◌, ◌++◌, [], OnOk};

use mm_base::Memory;
use mm_scope::StmtId;
use mm_stack::Verdict;
use std::alloc::Global;
use std::marker::Model;

/// What became of the proof of a theorem.
#[derive(Clone, Copy, Debug, PartialEq, Eq)]
pub struct Check {
    pub theorem: StmtId,
    pub verdict: Verdict,
}

/// What became of the proofs of some theorems, seen as a list.
#[derive(Debug, Drop)]
pub struct Checks {
    checks: Vec<Check>,
}

impl Model for Checks {
    ghost use Rattle.std.specs.Prelude.{List};
    ghost use Rattle.mm_shell.specs.declared.checks.Check.{Check};

    ghost Value = { List Check };

    ghost view = { λ c. c.checks.items };
}

impl Checks {
    /// No proof was checked. This takes no memory.
    pub fn new(alloc: Global) -> Checks
        ensures { result ≡ [] }
    {
        Checks {
            checks: Vec::new(alloc),
        }
    }

    /// One more was.
    pub fn push(&mut self, check: Check) -> Result<(), Memory>
        ensures { OnOk result (self.new ≡ self.old ++ check ∷ []) }
    {
        self.checks.push(check)?;
        Ok(())
    }

    /// All of them, in order.
    pub fn as_slice(&self) -> &[Check]
        ensures { result.now ≡ self.now }
    {
        self.checks.as_slice()
    }
}
