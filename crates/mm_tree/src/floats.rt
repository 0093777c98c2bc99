//! Children for floating hypotheses, which are made unknown.

ghost use Rattle.std.specs.Prelude.{◌≡◌, ◌+◌, ◌<◌, ◌≤◌, ◌^◌, ◌&&◌, ◌++◌, ◌∷◌, ℕ, List, [], All, IfOk, OnOk, OnErr, is_some, length};
ghost use Rattle.std.specs.List.{list_any};
ghost use Rattle.mm_scope.specs.Contents.{labels_of};
ghost use Rattle.mm_subst.specs.declared.symbol.WSym.{WSym};
ghost use Rattle.mm_plain.specs.Floats.{bared_in, has_float, has_float_among};
ghost use Rattle.mm_plain.specs.Numbers.{HasOwnLabels};
ghost use Rattle.mm_plain.specs.Shape.{size_of, steps_of};
ghost use Rattle.mm_plain.specs.Sources.{label_of};
ghost use Rattle.mm_plain.specs.Valid.{IsValid};
ghost use Rattle.mm_tree.specs.Lines.{Line};
ghost use Rattle.mm_tree.specs.Floats.{bared_as, is_float_at, new_or};
ghost use Rattle.mm_tree.specs.Meanings.{count, known_timed, mean, means};
ghost use Rattle.mm_tree.specs.Versions.{BeginsAlike, KeepsMarks};
ghost use Rattle.mm_tree.specs.View.{counts, values};

use crate::node::{Node, Step};
use crate::premises::{premises, unknown_node};
use crate::timed::{Text, Values};
use crate::tree::Tree;
use mm_base::{Made, Steps};
use mm_scope::{Database, Kind, StmtId};
use std::alloc::{AllocError, Global};
use std::rc::Rc;
use std::sync::ledger::Ledger;

/// Whether the hypothesis with an index is a `$f`.
fn is_float_at(db: &Database, premises: &[u32], at: usize) -> bool
    requires { All (λ m. m < length (labels_of db.now)) premises.now }
    ensures { result ≡ is_float_at db.now premises.now at }
{
    match premises.get(at) {
        Some(premise) => matches!(db.kind(StmtId(*premise)), Kind::Float),
        None => false,
    }
}

/// Whether a child with an index stands for a `$f`, and is known.
fn is_known_float(db: &Database, premises: &[u32], at: usize, kid: &Node) -> bool
    requires { All (λ m. m < length (labels_of db.now)) premises.now }
    ensures { (line : Line) → result ≡ (is_float_at db.now premises.now at && is_some (label_of (mean kid.now line))) }
{
    let known = kid.label().is_some();
    is_float_at(db, premises, at) && known
}

/// Whether some child for a `$f` is known.
fn has_float_among(db: &Database, premises: &[u32], kids: &[Rc<Node>]) -> bool
    requires { All (λ m. m < length (labels_of db.now)) premises.now }
    ensures { (line : Line) → result ≡ has_float_among db.now premises.now (means line (values kids.now)) }
{
    let mut at = 0;
    for kid in kids {
        if is_known_float(db, premises, at, kid) {
            return true;
        }
        at += 1;
    }
    false
}

/// Whether some step of a node has a child for a `$f` that is known.
fn has_float(db: &Database, node: &Node) -> bool
    requires { HasOwnLabels db.now (mean node.now []) }
    ensures { (line : Line) → result ≡ list_any (has_float db.now) (steps_of (mean node.now line)) }
{
    match &node.step {
        Step::Known(_, label, _, kids) => {
            for kid in kids {
                if has_float(db, kid) {
                    return true;
                }
            }
            has_float_among(db, premises(db, StmtId(*label)), kids)
        }
        Step::Unknown(_) => false,
    }
}

/// Appends a node that was made for a child, or else the child itself; whether one was made.
fn push_new(
    new: Option<Rc<Node>>,
    old: &Rc<Node>,
    kids: &mut Vec<Rc<Node>>,
) -> Result<bool, AllocError>
    ensures kids { OnOk result (values kids.new.items ≡ values kids.old.items ++ new_or new old.now.value ∷ []) }
    ensures made { IfOk result (λ b. b ≡ is_some new) }
{
    match new {
        Some(kid) => {
            kids.push(kid)?;
            Ok(true)
        }
        None => {
            kids.push(old.clone()?)?;
            Ok(false)
        }
    }
}

/// A known step made anew over other children; its strings are shared.
fn known_over<L: Ledger>(
    alloc: Global,
    target: &Rc<Text>,
    label: u32,
    sigma: &Rc<Values>,
    kids: Vec<Rc<Node>>,
    steps: &mut Steps<L>,
) -> Result<Rc<Node>, AllocError>
    requires { counts kids.items < 2 ^ 63 }
    ensures node { IfOk result (λ r. r.value ≡ known_timed target.now.value label sigma.now.value (values kids.items)) }
    ensures cost { steps.new ≤ steps.old + 1 }
{
    let target = target.clone()?;
    let sigma = sigma.clone()?;
    let made = Made::new(steps);
    Ok(Rc::new(alloc, Node::known(target, label, sigma, kids, made))?)
}

/// A tree with each child for a `$f` made unknown, and its root too where it stands for one. `None` where nothing changes; a
/// subtree in which nothing changes is shared.
fn bare<L: Ledger>(
    alloc: Global,
    db: &Database,
    node: &Rc<Node>,
    float: bool,
    steps: &mut Steps<L>,
) -> Result<Option<Rc<Node>>, AllocError>
    requires few { count node.now.value < 2 ^ 62 }
    requires own { HasOwnLabels db.now (mean node.now.value []) }
    ensures node { IfOk result (λ o. new_or o node.now.value ≡ bared_as db.now float node.now.value) }
    ensures cost { steps.new ≤ steps.old + count node.now.value }
{
    match &node.step {
        Step::Known(target, label, sigma, kids) => {
            if float {
                let node = unknown_node(alloc, target.clone()?, steps)?;
                return Ok(Some(node));
            }
            let premises = premises(db, StmtId(*label));
            let mut now = Vec::with_capacity(alloc, kids.len())?;
            let mut changed = false;
            let mut at = 0;
            for kid in kids {
                let new = bare(alloc, db, kid, is_float_at(db, premises, at), steps)?;
                if push_new(new, kid, &mut now)? {
                    changed = true;
                }
                at += 1;
            }
            if !changed {
                return Ok(None);
            }
            let node = known_over(alloc, target, *label, sigma, now, steps)?;
            Ok(Some(node))
        }
        Step::Unknown(_) => Ok(None),
    }
}

impl Tree {
    /// Whether some child that stands for a `$f` is known.
    pub fn has_float(&self, db: &Database) -> bool
        requires { HasOwnLabels db.now self.now.proof.plain }
        ensures { result ≡ list_any (has_float db.now) (steps_of self.now.proof.plain) }
    {
        has_float(db, self.hand())
    }

    /// Makes each child that stands for a `$f` unknown. Subtrees in which nothing changes stay shared. Where that is refused the
    /// tree is as before. Each mark that is alive stays alive.
    pub fn clear_floats<L: Ledger>(
        &mut self,
        alloc: Global,
        db: &Database,
        steps: &mut Steps<L>,
    ) -> Result<(), AllocError>
        requires { HasOwnLabels db.now self.old.proof.plain }
        ensures ok { OnOk result (self.new.proof ≡ bared_in db.now self.old.proof) }
        ensures err { OnErr result (self.new ≡ self.old) }
        ensures marks { KeepsMarks self.old.versions self.new.versions }
        ensures begun { BeginsAlike self.old.versions self.new.versions }
        ensures cost { steps.new ≤ steps.old + size_of self.old.proof.plain }
        // A proof that is valid for a theorem stays valid.
        ensures valid { OnOk result ((at : ℕ) (goal : List WSym) → IsValid db.now at goal self.old.proof → IsValid db.now at goal self.new.proof) }
    {
        match bare(alloc, db, self.root(), false, steps)? {
            Some(root) => self.replace_step(alloc, self.size(), root, steps),
            None => Ok(()),
        }
    }
}
