//! Steps of a proof.

ghost use Rattle.std.specs.Prelude.{◌≡◌, [], ◌∷◌, ◌++◌, OnOk, OnErr};
ghost use Rattle.mm_proof.specs.Steps.{IsLinked, AreLinked};

use mm_scope::StmtId;
use std::alloc::{AllocError, Global};
use std::marker::Model;

/// What a step of a proof stands for.
#[derive(Clone, Copy, Debug, PartialEq, Eq)]
pub enum StepKind {
    /// A hypothesis.
    Hyp(StmtId),
    /// An assertion, which takes a step for each of its mandatory hypotheses.
    Apply(StmtId),
    /// The tree of an earlier step once more, by the number of that step, counted from 1.
    Back(u32),
    /// `?`, a step that is not known yet.
    Unknown,
}

/// A step of a proof, and whether it has the tag by which later steps may name it.
#[derive(Clone, Copy, Debug, PartialEq, Eq)]
pub struct ProofStep {
    pub kind: StepKind,
    pub tagged: bool,
}

/// The steps of a proof, in postorder. A step that refers back names an earlier step that is tagged.
#[derive(Drop)]
pub struct ProofSteps {
    pub(crate) items: Vec<ProofStep>,
}

impl Model for ProofSteps {
    ghost use Rattle.std.specs.Prelude.{List, []};
    ghost use Rattle.mm_proof.specs.declared.step.ProofStep.{ProofStep};
    ghost use Rattle.mm_proof.specs.Steps.{AreLinked};

    ghost Value = { List ProofStep };

    ghost view = { λ s. s.items.items };

    ghost invariant = { λ s. AreLinked [] s.items.items };
}

impl ProofSteps {
    /// No step. This takes no memory.
    pub fn new(alloc: Global) -> ProofSteps
        ensures { result ≡ [] }
    {
        ProofSteps {
            items: Vec::new(alloc),
        }
    }

    /// Appends a step. One that refers back must name a step that is there and tagged. Where memory is wanted the steps are
    /// as before.
    pub fn push(&mut self, alloc: Global, step: ProofStep) -> Result<(), AllocError>
        requires { IsLinked self.old step.kind }
        ensures ok { OnOk result (self.new ≡ self.old ++ step ∷ []) }
        ensures err { OnErr result (self.new ≡ self.old) }
    {
        let _ = alloc;
        self.items.push(step)?;
        Ok(())
    }

    /// The steps themselves.
    pub fn steps(&self) -> &[ProofStep]
        ensures value { result.now ≡ self.now }
        ensures linked { AreLinked [] result.now }
    {
        self.items.as_slice()
    }
}
