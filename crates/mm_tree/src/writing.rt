//! Trees written out: the strings of a version as the first strings of another one.

ghost use Rattle.std.specs.Prelude.{◌≡◌, ◌+◌, ◌<◌, ◌≤◌, ◌^◌, IfOk};
ghost use Rattle.mm_tree.specs.Meanings.{count, known_timed, mean, sigma_now, text_now};
ghost use Rattle.mm_tree.specs.View.{counts, values};
ghost use Rattle.mm_tree.specs.Written.{written};

use crate::line::{Line, string_now};
use crate::node::{Node, Step};
use crate::premises::{text, unknown_node};
use crate::sources::values_now;
use crate::timed::{Text, Values};
use mm_base::{Made, Steps};
use std::alloc::{AllocError, Global};
use std::rc::Rc;
use std::sync::ledger::Ledger;

/// A string of a version, with another birth.
fn text_anew(
    alloc: Global,
    line: &Line<'_>,
    old: &Text,
    birth: usize,
) -> Result<Rc<Text>, AllocError>
    ensures { IfOk result (λ t. t.value ≡ record { birth = birth; string = text_now line.now old.now }) }
{
    let string = string_now(alloc, line, old.birth, &old.string)?;
    text(alloc, birth, string)
}

/// A known step whose strings are those of a version, with another birth.
fn known_anew<L: Ledger>(
    alloc: Global,
    line: &Line<'_>,
    target: &Text,
    label: u32,
    sigma: &Values,
    kids: Vec<Rc<Node>>,
    birth: usize,
    steps: &mut Steps<L>,
) -> Result<Rc<Node>, AllocError>
    requires { counts kids.items < 2 ^ 63 }
    ensures node { IfOk result (λ r. r.value ≡ known_timed (record { birth = birth; string = text_now line.now target.now }) label (record { birth = birth; pairs = sigma_now line.now sigma.now }) (values kids.items)) }
    ensures cost { steps.new ≤ steps.old + 1 }
{
    let target = text_anew(alloc, line, target, birth)?;
    let pairs = values_now(alloc, line, sigma)?;
    let sigma = Rc::new(alloc, Values { birth, pairs })?;
    let made = Made::new(steps);
    Ok(Rc::new(alloc, Node::known(target, label, sigma, kids, made))?)
}

/// A tree of a version in new nodes, one for each step.
pub fn write_out<L: Ledger>(
    alloc: Global,
    line: &Line<'_>,
    node: &Node,
    birth: usize,
    steps: &mut Steps<L>,
) -> Result<Rc<Node>, AllocError>
    requires { count node.now < 2 ^ 63 }
    ensures node { IfOk result (λ r. r.value ≡ written birth (mean node.now line.now)) }
    ensures cost { steps.new ≤ steps.old + count node.now }
{
    match &node.step {
        Step::Unknown(target) => {
            let target = text_anew(alloc, line, target, birth)?;
            unknown_node(alloc, target, steps)
        }
        Step::Known(target, label, sigma, kids) => {
            let mut nodes = Vec::with_capacity(alloc, kids.len())?;
            for kid in kids {
                nodes.push(write_out(alloc, line, kid, birth, steps)?)?;
            }
            known_anew(alloc, line, target, *label, sigma, nodes, birth, steps)
        }
    }
}
