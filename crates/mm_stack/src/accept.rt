//! Verifying a theorem's proof.

ghost use Rattle.std.specs.Prelude.{◌≡◌, ◌<◌, List, ℕ, length, IfOk};
ghost use Rattle.mm_scope.specs.Contents.{labels_of, stated_at};
ghost use Rattle.mm_stated.specs.declared.statement.Kind.TheVariants.{Theorem};
ghost use Rattle.mm_stack.specs.Accepting.{verdict_at, verdict_of};

use crate::machine::{Machine, Stop};
use crate::outcome::{StackFault, Verdict};
use crate::stack::Stack;
use mm_proof::{ProofFault, decode};
use mm_scope::{Database, StmtId};
use std::alloc::{AllocError as Memory, Global};

/// What the stack at the end of a run says of a theorem with these symbols.
fn verdict_at(stack: &Stack, goal: &[u32]) -> Verdict
    ensures { result ≡ verdict_at goal.now stack.now.stack }
{
    let count = stack.count();
    if count != 1 {
        return Verdict::Faulty(StackFault::LeftOver(count as u64));
    }
    if stack.entry(0) == goal {
        Verdict::Accepted
    } else {
        Verdict::Faulty(StackFault::WrongResult)
    }
}

/// Verifies the proof of a theorem, in either form: what comes of it is the first of these. Its text has a fault; a step is
/// `?`; a step has a fault; the stack at the end is not the theorem's statement alone. Otherwise it is accepted (Metamath
/// book, section 4.1.4).
#[tactic(auto, unfolding(crate::specs::Accepting::verdict_of))]
pub fn verify(alloc: Global, db: &Database, id: StmtId) -> Result<Verdict, Memory>
    requires own { id.0 < length (labels_of db.now) }
    requires theorem { (stated_at db.now id.0).kind ≡ Theorem }
    ensures { IfOk result (λ verdict. verdict ≡ verdict_of db.now id.0) }
{
    let steps = match decode(alloc, db, id) {
        Ok(steps) => steps,
        Err(ProofFault::Memory) => return Err(Memory),
        Err(fault) => return Ok(Verdict::Faulty(StackFault::Proof(fault))),
    };
    let parted = db.parted(alloc, id)?;
    let mut machine = Machine::new(alloc);
    match machine.run(db, &parted, steps.steps()) {
        Ok(()) => {
            let goal = db.frame(id).conclusion.as_slice();
            Ok(verdict_at(&machine.stack, goal))
        }
        Err(Stop::Ended(verdict)) => Ok(verdict),
        Err(Stop::Memory) => Err(Memory),
    }
}
