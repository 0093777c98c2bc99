//! The proof machine: the run of a proof's steps.

ghost use Rattle.std.specs.Prelude.{◌≡◌, ◌≤◌, ◌<◌, ◌-◌, true, List, [], length, drop, All, IfOk, slice_index_or};
ghost use Rattle.std.specs.List.{AllByRecursion, list_all};
ghost use Rattle.mm_scope.specs.Contents.{labels_of, stated_at};
ghost use Rattle.mm_proof.specs.Steps.{IsOwn};
ghost use Rattle.mm_stack.specs.Seats.{value_in};
ghost use Rattle.mm_stack.specs.Substitution.{Binding};
ghost use Rattle.mm_stack.specs.Running.{arguments, has_typecode, bind, substitution_of, is_instance, applying, start, run_step, run_from};
ghost use Rattle.mm_stack.specs.Machines.{Means, Stands};
ghost use Rattle.mm_stack.specs.declared.machine.Stop.TheVariants.{Memory};

use crate::differing::violation;
use crate::instance::{fill, is_instance};
use crate::outcome::{StackFault, Verdict};
use crate::stack::Stack;
use crate::values::Values;
use mm_proof::{ProofStep, StepKind};
use mm_scope::{Database, Kind, StmtId};
use mm_tables::Parted;
use std::alloc::{AllocError, Global};

/// Why a run stops before its end.
#[derive(Clone, Copy, Debug, PartialEq, Eq)]
pub enum Stop {
    Ended(Verdict),
    Memory,
}

impl From<AllocError> for Stop {
    ghost from_gives = { λ _ stop. stop ≡ Memory };

    fn from(_e: AllocError) -> Stop {
        Stop::Memory
    }
}

/// The stack, and what serves each assertion anew: the table of values, and the entry that it pushes.
#[derive(Drop)]
pub struct Machine {
    pub stack: Stack,
    values: Values,
    conclusion: Vec<u32>,
}

fn faulty(fault: StackFault) -> Stop
    ensures { result ≡ Stop.Ended (Verdict.Faulty fault) }
{
    Stop::Ended(Verdict::Faulty(fault))
}

/// Lets the entry of a stack give its value to the variable of a `$f`; `false` exactly where the typecode differs.
/// Another hypothesis changes nothing.
fn bind(
    values: &mut Values,
    stack: &Stack,
    db: &Database,
    hypothesis: StmtId,
    number: usize,
) -> Result<bool, AllocError>
    requires { hypothesis.0 < length (labels_of db.now) }
    ensures fits { IfOk result (λ fits. fits ≡ has_typecode (record { hypothesis = stated_at db.now hypothesis.0; entry = slice_index_or stack.now.stack number [] })) }
    ensures means { IfOk result (λ fits. fits ≡ true → (sigma : List Binding) → Means values.old stack.now.stack sigma → Means values.new stack.now.stack (bind (record { hypothesis = stated_at db.now hypothesis.0; entry = slice_index_or stack.now.stack number [] }) sigma)) }
{
    match db.kind(hypothesis) {
        Kind::Float => {
            let symbols = db.frame(hypothesis).conclusion.as_slice();
            match stack.entry(number) {
                [typecode, ..] if *typecode == symbols[0] => {
                    values.set(symbols[1], number)?;
                    Ok(true)
                }
                _ => Ok(false),
            }
        }
        Kind::Essential | Kind::Axiom | Kind::Theorem => Ok(true),
    }
}

/// Lets the newest entries give their values to the variables of the mandatory `$f`; `false` exactly where a typecode
/// differs.
fn bind_all(
    values: &mut Values,
    stack: &Stack,
    db: &Database,
    mandatory: &[u32],
) -> Result<bool, AllocError>
    requires own { All (λ m. m < length (labels_of db.now)) mandatory.now }
    requires room { length mandatory.now ≤ length stack.now.stack }
    ensures fits { IfOk result (λ fits. fits ≡ list_all has_typecode (arguments db.now mandatory.now (drop (length stack.now.stack - length mandatory.now) stack.now.stack))) }
    ensures means { IfOk result (λ fits. fits ≡ true → Means values.new stack.now.stack (substitution_of (arguments db.now mandatory.now (drop (length stack.now.stack - length mandatory.now) stack.now.stack)))) }
{
    values.clear();
    let mut number = stack.count();
    let mut left = mandatory.len();
    while left > 0 {
        left -= 1;
        number -= 1;
        if !bind(values, stack, db, StmtId(mandatory[left]), number)? {
            return Ok(false);
        }
    }
    Ok(true)
}

/// Whether the entry of a stack is the instance of a `$e`. Another hypothesis agrees with each entry.
fn agrees(values: &Values, stack: &Stack, db: &Database, hypothesis: StmtId, number: usize) -> bool
    requires { hypothesis.0 < length (labels_of db.now) }
    ensures { result ≡ is_instance (value_in values.now stack.now.stack) (record { hypothesis = stated_at db.now hypothesis.0; entry = slice_index_or stack.now.stack number [] }) }
{
    match db.kind(hypothesis) {
        Kind::Float => true,
        Kind::Essential | Kind::Axiom | Kind::Theorem => {
            let symbols = db.frame(hypothesis).conclusion.as_slice();
            is_instance(values, stack, symbols, stack.entry(number))
        }
    }
}

/// Whether the newest entries are the instances of the mandatory `$e`.
fn all_agree(values: &Values, stack: &Stack, db: &Database, mandatory: &[u32]) -> bool
    requires own { All (λ m. m < length (labels_of db.now)) mandatory.now }
    requires room { length mandatory.now ≤ length stack.now.stack }
    ensures { result ≡ list_all (is_instance (value_in values.now stack.now.stack)) (arguments db.now mandatory.now (drop (length stack.now.stack - length mandatory.now) stack.now.stack)) }
{
    let mut number = stack.count();
    let mut left = mandatory.len();
    while left > 0 {
        left -= 1;
        number -= 1;
        if !agrees(values, stack, db, StmtId(mandatory[left]), number) {
            return false;
        }
    }
    true
}

impl Machine {
    /// A machine before the first step. It takes no memory.
    pub fn new(alloc: Global) -> Machine
        ensures { result.stack ≡ start }
    {
        Machine {
            stack: Stack::new(alloc),
            values: Values::new(alloc),
            conclusion: Vec::new(alloc),
        }
    }

    /// Runs an assertion as the next step.
    fn apply(&mut self, db: &Database, parted: &Parted, id: StmtId) -> Result<(), Stop>
        requires { id.0 < length (labels_of db.now) }
        ensures { Stands self.new.stack result (applying db.now parted.now (stated_at db.now id.0) self.old.stack) }
    {
        let number = self.stack.next_number();
        let frame = db.frame(id);
        let mandatory = frame.mandatory.as_slice();
        let count = self.stack.count();
        if count < mandatory.len() {
            return Err(faulty(StackFault::Underflow(number)));
        }
        if !bind_all(&mut self.values, &self.stack, db, mandatory)? {
            return Err(faulty(StackFault::FloatMismatch(number)));
        }
        if !all_agree(&self.values, &self.stack, db, mandatory) {
            return Err(faulty(StackFault::EssentialMismatch(number)));
        }
        let pairs = frame.pairs.as_slice();
        if let Some(fault) = violation(db, parted, number, &self.values, &self.stack, pairs) {
            return Err(faulty(fault));
        }
        let symbols = frame.conclusion.as_slice();
        if !fill(&self.values, &self.stack, symbols, &mut self.conclusion)? {
            return Err(faulty(StackFault::TooLong(number)));
        }
        self.stack.truncate(count - mandatory.len());
        self.stack.push(self.conclusion.as_slice())?;
        Ok(())
    }

    /// Runs the next step.
    fn step(&mut self, db: &Database, parted: &Parted, step: StepKind) -> Result<(), Stop>
        requires { IsOwn db.now step }
        ensures { Stands self.new.stack result (run_step db.now parted.now self.old.stack step) }
    {
        match step {
            StepKind::Hyp(id) => {
                self.stack.push(db.frame(id).conclusion.as_slice())?;
                Ok(())
            }
            StepKind::Apply(id) => self.apply(db, parted, id),
            StepKind::Back(number) => {
                self.stack.repeat((number as usize).saturating_sub(1))?;
                Ok(())
            }
            StepKind::Unknown => Err(Stop::Ended(Verdict::Incomplete)),
        }
    }

    /// Runs the steps of a proof, where variables of these groups must differ.
    pub fn run(&mut self, db: &Database, parted: &Parted, steps: &[ProofStep]) -> Result<(), Stop>
        requires own { AllByRecursion (λ s. IsOwn db.now s.kind) steps.now }
        requires first { self.old.stack ≡ start }
        ensures { Stands self.new.stack result (run_from db.now parted.now start steps.now) }
    {
        for step in steps {
            self.step(db, parted, step.kind)?;
        }
        Ok(())
    }
}
