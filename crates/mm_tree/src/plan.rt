//! Trees that are laid out step by step, before a node is made.

ghost use Rattle.std.specs.Prelude.{◌≡◌, ◌+◌, ◌-◌, ◌<◌, ◌≤◌, ◌^◌, IfOk, OnOk, drop, get_or, length, map, take};
ghost use Rattle.std.specs.List.{sum_by};
ghost use Rattle.mm_plain.specs.Shape.{height_of, known, size_of, target_of};
ghost use Rattle.mm_plain.specs.Valid.{most_levels, most_steps, most_works};
ghost use Rattle.mm_tree.specs.Meanings.{known_timed};
ghost use Rattle.mm_tree.specs.Plans.{IsFit, IsNoteOf, IsPlan, IsThere, grove_of, grown, no_grove, no_tree, stay_of, timed_by, tree_by};
ghost use Rattle.mm_tree.specs.Versions.{HasNoDrafts};
ghost use Rattle.mm_tree.specs.View.{counts, values};
ghost use Rattle.mm_tree.specs.Written.{written};

use crate::node::Node;
use crate::premises::text;
use crate::timed::{Text, Values};
use crate::tree::{Tree, rooted};
use mm_base::{Made, Steps};
use mm_scope::StmtId;
use mm_subst::{Subst, WStr};
use std::alloc::{AllocError, Global};
use std::rc::Rc;
use std::sync::ledger::Ledger;

/// A step of a plan.
#[derive(Drop)]
pub enum PlanStep {
    /// A known step over the last trees that stand: its string, what it names, its substitution, and how many it takes.
    Known(Rc<Text>, u32, Rc<Values>, usize),
    /// The tree of an earlier step once more, by the index of that step.
    Again(usize),
}

/// What is kept of a tree that stands, or of the tree of a step.
#[derive(Drop)]
pub struct Note {
    text: Rc<Text>,
    steps: u64,
}

/// Trees that are laid out step by step. No node is made before the plan becomes a tree, and then one for each known step of
/// the plan: a tree that stands once more is shared.
#[derive(Drop)]
pub struct Plan {
    items: Vec<PlanStep>,
    standing: Vec<Note>,
    made: Vec<Note>,
    total: u64,
}

impl Plan {
    /// A plan of no step. This takes no memory.
    pub fn new(alloc: Global) -> Plan
        ensures plan { IsPlan result }
        ensures grove { grove_of result ≡ no_grove }
    {
        Plan {
            items: Vec::new(alloc),
            standing: Vec::new(alloc),
            made: Vec::new(alloc),
            total: 0,
        }
    }

    /// How many trees stand.
    pub fn count(&self) -> usize
        requires { IsPlan self.now }
        ensures { result ≡ length (grove_of self.now).standing }
    {
        self.standing.len()
    }

    /// How many steps the trees that stand have.
    pub fn steps(&self) -> u64
        requires { IsPlan self.now }
        ensures { result ≡ sum_by size_of (grove_of self.now).standing }
    {
        self.total
    }

    /// The string that a tree proves which stands at an index.
    pub fn target(&self, at: usize) -> &WStr
        requires plan { IsPlan self.now }
        requires exists { at < length (grove_of self.now).standing }
        ensures { result.now ≡ target_of (get_or (grove_of self.now).standing at no_tree) }
    {
        &self.standing[at].text.string
    }

    /// How many steps the tree of a step has.
    pub fn steps_at(&self, step: usize) -> u64
        requires plan { IsPlan self.now }
        requires exists { step < length (grove_of self.now).made }
        ensures { result ≡ size_of (get_or (grove_of self.now).made step no_tree) }
    {
        self.made[step].steps
    }

    /// Puts a known step over the last trees that stand, with these strings.
    pub fn push(
        &mut self,
        alloc: Global,
        target: WStr,
        id: StmtId,
        sigma: Subst,
        takes: usize,
    ) -> Result<(), AllocError>
        requires plan { IsPlan self.old }
        requires takes { takes ≤ length (grove_of self.old).standing }
        requires room { sum_by size_of (grove_of self.old).standing < most_steps }
        ensures plan { OnOk result (IsPlan self.new) }
        ensures grove { OnOk result (grove_of self.new ≡ grown (grove_of self.old) (length (grove_of self.old).standing - takes) (known target id.0 sigma (drop (length (grove_of self.old).standing - takes) (grove_of self.old).standing))) }
    {
        let stay = self.standing.len() - takes;
        let steps = steps_in(&self.standing[stay..]) + 1;
        let text = text(alloc, 0, target)?;
        let sigma = Rc::new(
            alloc,
            Values {
                birth: 0,
                pairs: sigma,
            },
        )?;
        let step = PlanStep::Known(text.clone()?, id.0, sigma, takes);
        self.add(step, stay, Note { text, steps }, self.total + 1)
    }

    /// Puts the tree of an earlier step behind those that stand.
    pub fn push_again(&mut self, step: usize) -> Result<(), AllocError>
        requires plan { IsPlan self.old }
        requires exists { step < length (grove_of self.old).made }
        requires room { sum_by size_of (grove_of self.old).standing + size_of (get_or (grove_of self.old).made step no_tree) ≤ most_steps }
        ensures plan { OnOk result (IsPlan self.new) }
        ensures grove { OnOk result (grove_of self.new ≡ grown (grove_of self.old) (length (grove_of self.old).standing) (get_or (grove_of self.old).made step no_tree)) }
    {
        let stay = self.standing.len();
        let note = self.made[step].share()?;
        let total = self.total + note.steps;
        self.add(PlanStep::Again(step), stay, note, total)
    }

    /// Appends a step, whose tree takes the place of those that don't stay.
    fn add(&mut self, step: PlanStep, stay: usize, note: Note, total: u64) -> Result<(), AllocError>
        requires plan { IsPlan self.old }
        requires stay { stay ≡ stay_of step (length (grove_of self.old).standing) }
        requires fits { IsFit (grove_of self.old) step }
        requires note { IsNoteOf note (tree_by step (grove_of self.old)) }
        requires total { total ≡ sum_by size_of (take stay (grove_of self.old).standing) + note.steps }
        requires room { total ≤ most_steps }
        requires more { sum_by size_of (grove_of self.old).standing < total }
        ensures plan { OnOk result (IsPlan self.new) }
        ensures grove { OnOk result (grove_of self.new ≡ grown (grove_of self.old) stay (tree_by step (grove_of self.old))) }
    {
        let again = note.share()?;
        self.items.push(step)?;
        self.standing.truncate(stay);
        self.standing.push(note)?;
        self.made.push(again)?;
        self.total = total;
        Ok(())
    }

    /// The one tree that stands, without drafts.
    pub fn into_tree<L: Ledger>(
        &self,
        alloc: Global,
        next: u32,
        steps: &mut Steps<L>,
    ) -> Result<Tree, AllocError>
        requires plan { IsPlan self.now }
        requires one { length (grove_of self.now).standing ≡ 1 }
        requires low { height_of (get_or (grove_of self.now).standing 0 no_tree) ≤ most_levels }
        requires next { (1 ≤ next) × (next ≤ most_works + 1) }
        ensures proof { IfOk result (λ t. t.proof ≡ record { plain = get_or (grove_of self.now).standing 0 no_tree; next = next }) }
        ensures settled { IfOk result (λ t. HasNoDrafts t.versions) }
        ensures cost { steps.new ≤ steps.old + size_of (get_or (grove_of self.now).standing 0 no_tree) }
    {
        let mut nodes = self.nodes(alloc, steps)?;
        match nodes.pop() {
            Some(root) => rooted(alloc, root, Vec::new(alloc), next),
            None => unreachable!(),
        }
    }

    /// The nodes of the trees that stand.
    fn nodes<L: Ledger>(
        &self,
        alloc: Global,
        steps: &mut Steps<L>,
    ) -> Result<Vec<Rc<Node>>, AllocError>
        requires { IsPlan self.now }
        ensures nodes { IfOk result (λ v. values v.items ≡ map (written 0) (grove_of self.now).standing) }
        ensures cost { steps.new ≤ steps.old + length self.now.items.items }
    {
        let mut standing: Vec<Rc<Node>> = Vec::new(alloc);
        let mut made: Vec<Rc<Node>> = Vec::new(alloc);
        for step in &self.items {
            let node = node_of(alloc, step, &mut standing, made.as_slice(), steps)?;
            made.push(node.clone()?)?;
            standing.push(node)?;
        }
        Ok(standing)
    }
}

impl Note {
    /// The same note once more.
    fn share(&self) -> Result<Note, AllocError>
        ensures { IfOk result (λ n. (n.text.value ≡ self.now.text.value) × (n.steps ≡ self.now.steps)) }
    {
        Ok(Note {
            text: self.text.clone()?,
            steps: self.steps,
        })
    }
}

/// How many steps these trees have.
fn steps_in(notes: &[Note]) -> u64
    requires { sum_by (λ n. n.steps) notes.now < 2 ^ 63 }
    ensures { result ≡ sum_by (λ n. n.steps) notes.now }
{
    let mut steps = 0;
    for note in notes {
        steps += note.steps;
    }
    steps
}

/// The node of a step, which takes its children from those that stand.
fn node_of<L: Ledger>(
    alloc: Global,
    step: &PlanStep,
    standing: &mut Vec<Rc<Node>>,
    made: &[Rc<Node>],
    steps: &mut Steps<L>,
) -> Result<Rc<Node>, AllocError>
    requires small { counts standing.old.items < 2 ^ 63 }
    requires exists { IsThere (length made.now) step.now }
    ensures node { IfOk result (λ r. r.value ≡ timed_by step.now (values standing.old.items) (values made.now)) }
    ensures stay { IfOk result (λ _. standing.new.items ≡ take (stay_of step.now (length standing.old.items)) standing.old.items) }
    ensures cost { steps.new ≤ steps.old + 1 }
{
    match step {
        PlanStep::Known(text, label, sigma, takes) => {
            let kids = standing.split_off(standing.len().saturating_sub(*takes))?;
            known_of(alloc, text, *label, sigma, kids, steps)
        }
        PlanStep::Again(index) => Ok(made[*index].clone()?),
    }
}

/// A known step whose strings are shared.
fn known_of<L: Ledger>(
    alloc: Global,
    text: &Rc<Text>,
    label: u32,
    sigma: &Rc<Values>,
    kids: Vec<Rc<Node>>,
    steps: &mut Steps<L>,
) -> Result<Rc<Node>, AllocError>
    requires { counts kids.items < 2 ^ 63 }
    ensures node { IfOk result (λ r. r.value ≡ known_timed text.now.value label sigma.now.value (values kids.items)) }
    ensures cost { steps.new ≤ steps.old + 1 }
{
    let text = text.clone()?;
    let sigma = sigma.clone()?;
    let made = Made::new(steps);
    Ok(Rc::new(alloc, Node::known(text, label, sigma, kids, made))?)
}
