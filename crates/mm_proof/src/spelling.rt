//! The letters of steps.

ghost use Rattle.std.specs.Prelude.{◌≡◌, ◌<◌, ◌^◌, ℕ, List, Bool, true, false, ◌≤◌, ◌++◌, ◌||◌, length, IfOk, OnOk, get_or, if◌then◌else◌};
ghost use Rattle.std.specs.List.{flat_map};
ghost use Rattle.mm_proof.specs.Spelling.{is_named};
ghost use Rattle.mm_proof.specs.Numbered.{number_in, spell, Names, Numbers, number_by, names};

use crate::number::{number_len, push_number};
use crate::written::Step;
use std::alloc::{AllocError, Global};
use std::collections::HashMap;

/// A step as it is written: its number, 0 for `?`, and whether it has a tag.
#[derive(Clone, Copy)]
pub struct Spelt {
    pub number: u64,
    pub tag: bool,
}

/// Marks the step that a back reference names.
fn mark(named: &mut Vec<bool>, step: Step)
    ensures count { length named.new.items ≡ length named.old.items }
    ensures is { (k : ℕ) → k < length named.old.items → get_or named.new.items k false ≡ (get_or named.old.items k false || names step k) }
{
    if let Step::Back(place) = step {
        if place < named.len() as u64 {
            named[place as usize] = true;
        }
    }
}

/// Whether some back reference names each step.
fn named(alloc: Global, steps: &[Step]) -> Result<Vec<bool>, AllocError>
    ensures { IfOk result (λ v. Names steps.now v.items) }
{
    let mut named = vec![in alloc; false; steps.len()]?;
    for step in steps {
        mark(&mut named, *step);
    }
    Ok(named)
}

/// A number, or 0.
fn number_if(tag: bool, number: u64) -> u64
    ensures { result ≡ (if tag then number else 0) }
{
    if tag { number } else { 0 }
}

/// The numbers of steps, where `known` has the number of each label, and so many labels have one.
pub(crate) fn numbers(
    alloc: Global,
    known: &HashMap<u64, u64>,
    count: u64,
    steps: &[Step],
) -> Result<Vec<Spelt>, AllocError>
    requires count { count < 2 ^ 32 }
    requires steps { length steps.now < 2 ^ 32 }
    ensures { IfOk result (λ v. Numbers (number_in known.now) count steps.now v.items) }
{
    let named = named(alloc, steps)?;
    let mut tags: Vec<u64> = Vec::new(alloc);
    let mut next = count + 1;
    let mut out = Vec::new(alloc);
    for step in steps {
        let number = number_of(known, &tags, *step);
        let tag = named[out.len()];
        tags.push(number_if(tag, next))?;
        next += number_if(tag, 1);
        out.push(Spelt { number, tag })?;
    }
    Ok(out)
}

/// The number of a step, 0 for `?`, where `tags` has the numbers of the steps before it.
fn number_of(known: &HashMap<u64, u64>, tags: &[u64], step: Step) -> u64
    ensures { result ≡ number_by (number_in known.now) tags.now step }
{
    match step {
        Step::Label(label) => match known.get(&label) {
            Some(number) => *number,
            None => 0,
        },
        Step::Unknown => 0,
        Step::Back(place) => match tags.get(place as usize) {
            Some(number) => *number,
            None => 0,
        },
    }
}

/// Appends the letters of one step.
fn push_step(out: &mut Vec<u8>, step: Spelt) -> Result<(), AllocError>
    ensures { OnOk result (out.new.items ≡ out.old.items ++ spell step) }
{
    if step.number == 0 {
        out.push(b'?')?;
    } else {
        push_number(out, step.number)?;
    }
    if step.tag {
        out.push(b'Z')?;
    }
    Ok(())
}

/// The letters of numbered steps.
pub(crate) fn letters(alloc: Global, steps: &[Spelt]) -> Result<Vec<u8>, AllocError>
    ensures { IfOk result (λ v. v.items ≡ flat_map spell steps.now) }
{
    let mut out = Vec::new(alloc);
    for step in steps {
        push_step(&mut out, *step)?;
    }
    Ok(out)
}

/// How many letters one step has.
fn step_len(step: Spelt) -> u64
    ensures value { result ≡ length (spell step) }
    ensures small { result ≤ 64 }
{
    let number = if step.number == 0 {
        1
    } else {
        number_len(step.number)
    };
    if step.tag { number + 1 } else { number }
}

/// How many letters numbered steps have.
pub(crate) fn letters_len(steps: &[Spelt]) -> u64
    requires { length steps.now < 2 ^ 32 }
    ensures { result ≡ length (flat_map spell steps.now) }
{
    let mut count = 0;
    for step in steps {
        count += step_len(*step);
    }
    count
}
