//! Which variables an assertion puts together that must differ.

ghost use Rattle.std.specs.Prelude.{◌≡◌, slice_get};
ghost use Rattle.mm_stack.specs.Seats.{value_in};
ghost use Rattle.mm_stack.specs.Differing.{fault_of, faults_with, faults_between, violations};

use crate::instance::value;
use crate::outcome::StackFault;
use crate::stack::Stack;
use crate::values::Values;
use mm_scope::{Database, Sym};
use mm_tables::{Pair, Parted};

/// The fault of two variables that must differ at a step.
fn fault_of(parted: &Parted, number: u64, u: u32, v: u32) -> Option<StackFault>
    ensures { result ≡ slice_get (fault_of parted.now number u v) 0 }
{
    if u == v {
        Some(StackFault::SameVariable(number, Sym(u)))
    } else if parted.are_distinct(u, v) {
        None
    } else {
        Some(StackFault::MissingDistinct(number, Sym(u), Sym(v)))
    }
}

/// The first fault of a variable with each variable of a value.
fn fault_with(
    db: &Database,
    parted: &Parted,
    number: u64,
    right: &[u32],
    u: u32,
) -> Option<StackFault>
    ensures { result ≡ slice_get (faults_with db.now parted.now number right.now u) 0 }
{
    for v in right {
        if db.is_variable(Sym(*v)) {
            if let Some(fault) = fault_of(parted, number, u, *v) {
                return Some(fault);
            }
        }
    }
    None
}

/// The first fault of each variable of one value with each of another.
fn fault_between(
    db: &Database,
    parted: &Parted,
    number: u64,
    left: &[u32],
    right: &[u32],
) -> Option<StackFault>
    ensures { result ≡ slice_get (faults_between db.now parted.now number left.now right.now) 0 }
{
    for u in left {
        if db.is_variable(Sym(*u)) {
            if let Some(fault) = fault_with(db, parted, number, right, *u) {
                return Some(fault);
            }
        }
    }
    None
}

/// The first fault of an assertion with these pairs of variables, where a table finds the values of symbols on a stack.
pub fn violation(
    db: &Database,
    parted: &Parted,
    number: u64,
    values: &Values,
    stack: &Stack,
    pairs: &[Pair],
) -> Option<StackFault>
    ensures { result ≡ slice_get (violations db.now parted.now number (value_in values.now stack.now.stack) pairs.now) 0 }
{
    for pair in pairs {
        let left = value(values, stack, &pair.first);
        let right = value(values, stack, &pair.second);
        if let Some(fault) = fault_between(db, parted, number, left, right) {
            return Some(fault);
        }
    }
    None
}
