//! The uses of all statements of a database, kept.

ghost use Rattle.std.specs.Prelude.{◌≡◌, ◌<◌, IfOk, [], length, slice_index_or};
ghost use Rattle.mm_scope.specs.Contents.{labels_of};
ghost use Rattle.mm_trace.specs.Traces.{once_behind, trace_of, used, uses_in};

use crate::applied::applied;
use mm_scope::{Database, StmtId};
use mm_tables::Gathered;
use std::alloc::{AllocError, Global};
use std::marker::Model;

/// The assertions that each statement of a database uses, each once. It is seen as the list of these lists.
#[derive(Drop)]
pub struct Trace {
    used: Vec<Vec<u32>>,
}

impl Model for Trace {
    ghost use Rattle.std.specs.Prelude.{List, ℕ};
    ghost use Rattle.mm_tables.specs.Texts.{texts};

    ghost Value = { List (List ℕ) };

    ghost view = { λ t. texts t.used.items };
}

/// Numbers, each once, where they come first.
#[tactic(auto, using(crate::proofs::TraceLemmas::once_more))]
fn once(alloc: Global, numbers: &[u32], gathered: &mut Gathered) -> Result<Vec<u32>, AllocError>
    ensures { IfOk result (λ v. v.items ≡ once_behind [] numbers.now) }
{
    gathered.clear();
    for number in numbers {
        gathered.insert(*number)?;
    }
    gathered.as_slice().to_vec(alloc)
}

/// The assertions that a statement uses, each once.
#[tactic(auto, unfolding(crate::specs::Traces::used))]
fn used(
    alloc: Global,
    db: &Database,
    id: StmtId,
    gathered: &mut Gathered,
) -> Result<Vec<u32>, AllocError>
    requires { id.0 < length (labels_of db.now) }
    ensures { IfOk result (λ v. v.items ≡ used db.now id.0) }
{
    let applied = applied(alloc, db, id)?;
    once(alloc, applied.as_slice(), gathered)
}

impl Trace {
    /// The uses of all statements. Each proof is read once, and each assertion that it applies is looked at once.
    #[tactic(auto, unfolding(crate::specs::Traces::trace_of))]
    pub fn of(alloc: Global, db: &Database) -> Result<Trace, AllocError>
        ensures { IfOk result (λ t. t ≡ trace_of db.now) }
    {
        let mut gathered = Gathered::new(alloc);
        let mut lists = Vec::new(alloc);
        for id in 0..db.count() {
            lists.push(used(alloc, db, StmtId(id), &mut gathered)?)?;
        }
        Ok(Trace { used: lists })
    }

    /// How many statements there are.
    pub(crate) fn count(&self) -> usize
        ensures { result ≡ length self.now }
    {
        self.used.len()
    }

    /// The assertions that the statement at a place uses.
    pub(crate) fn used_at(&self, place: usize) -> &[u32]
        ensures { result.now ≡ slice_index_or self.now place [] }
    {
        if place < self.used.len() {
            self.used[place].as_slice()
        } else {
            &[]
        }
    }

    /// Whether a statement uses an assertion.
    pub fn uses(&self, id: StmtId, on: StmtId) -> bool
        ensures { result ≡ uses_in self.now id.0 on.0 }
    {
        self.used_at(id.0 as usize).iter().any(|m| *m == on.0)
    }
}
