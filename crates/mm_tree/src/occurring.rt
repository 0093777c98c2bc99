//! Where a tree has a work variable.

ghost use Rattle.std.specs.Prelude.{◌≡◌, IfOk};
ghost use Rattle.std.specs.List.{list_any};
ghost use Rattle.mm_plain.specs.Occurring.{holds, occurs_in};
ghost use Rattle.mm_tree.specs.Lines.{string_now};
ghost use Rattle.mm_tree.specs.Meanings.{mean, sigma_now};

use crate::line::{Line, string_now};
use crate::node::{Node, Step};
use crate::timed::Values;
use mm_subst::{WStr, WSym};
use std::alloc::{AllocError, Global};

/// Whether a string has the work variable with a number.
fn holds(s: &WStr, number: u32) -> bool
    ensures { result ≡ holds number s.now }
{
    s.symbols()
        .iter()
        .any(|symbol| WSym::Work(number).is_same(*symbol))
}

/// Whether a string of a birth has it in a version.
fn holds_now(
    alloc: Global,
    line: &Line<'_>,
    birth: usize,
    s: &WStr,
    number: u32,
) -> Result<bool, AllocError>
    ensures { IfOk result (λ b. b ≡ holds number (string_now line.now birth s.now)) }
{
    let now = string_now(alloc, line, birth, s)?;
    Ok(holds(&now, number))
}

/// Whether a value of a substitution has it in a version.
fn has_value_with(
    alloc: Global,
    line: &Line<'_>,
    sigma: &Values,
    number: u32,
) -> Result<bool, AllocError>
    ensures { IfOk result (λ b. b ≡ list_any (λ p. holds number p.1) (sigma_now line.now sigma.now)) }
{
    for (_, value) in sigma.pairs.pairs() {
        if holds_now(alloc, line, sigma.birth, value, number)? {
            return Ok(true);
        }
    }
    Ok(false)
}

/// Whether the string of a step of a node, or a value of its substitution, has it in a version. A node without live strings
/// is passed over.
pub fn occurs_in(
    alloc: Global,
    line: &Line<'_>,
    node: &Node,
    number: u32,
) -> Result<bool, AllocError>
    ensures { IfOk result (λ b. b ≡ occurs_in number (mean node.now line.now)) }
{
    if !node.is_live() {
        return Ok(false);
    }
    match &node.step {
        Step::Known(target, _, sigma, kids) => {
            for kid in kids {
                if occurs_in(alloc, line, kid, number)? {
                    return Ok(true);
                }
            }
            if holds_now(alloc, line, target.birth, &target.string, number)? {
                return Ok(true);
            }
            has_value_with(alloc, line, sigma, number)
        }
        Step::Unknown(target) => holds_now(alloc, line, target.birth, &target.string, number),
    }
}
