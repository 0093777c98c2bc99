//! The list of labels of a compressed proof.

ghost use Rattle.std.specs.Prelude.{◌≡◌, ◌<◌, ◌≤◌, ◌^◌, ◌+◌, [], ℕ, List, length, map, IfOk, OnOk};
ghost use Rattle.mm_proof.specs.Numbered.{number_in, IsTable, Lists, Adds, Gives};

use crate::written::Step;
use std::alloc::{AllocError, Global};
use std::collections::HashMap;

/// The numbers of the mandatory hypotheses: their places, counted from 1.
pub(crate) fn own_numbers(alloc: Global, mandatory: &[u32]) -> Result<HashMap<u64, u64>, AllocError>
    ensures { IfOk result (λ m. IsTable (number_in m) (map (λ n. n + 1) mandatory.now)) }
{
    let mut known = HashMap::new(alloc);
    let mut next: u64 = 1;
    for id in mandatory {
        give(&mut known, *id as u64 + 1, next)?;
        next += 1;
    }
    Ok(known)
}

/// Gives a label a number, if it has none.
fn give(known: &mut HashMap<u64, u64>, label: u64, number: u64) -> Result<(), AllocError>
    ensures { OnOk result (Gives (number_in known.old) (number_in known.new) label number) }
{
    if known.contains_key(&label) {
        return Ok(());
    }
    known.insert(label, number)?;
    Ok(())
}

/// Lists the label of one step, if it has no number yet.
fn add(
    known: &mut HashMap<u64, u64>,
    list: &mut Vec<u64>,
    own: u64,
    step: Step,
) -> Result<(), AllocError>
    requires own { own < 2 ^ 32 }
    requires list { length list.old.items < 2 ^ 32 }
    ensures { OnOk result (Adds own (number_in known.old) (number_in known.new) list.old.items list.new.items step) }
{
    let Step::Label(label) = step else {
        return Ok(());
    };
    if known.contains_key(&label) {
        return Ok(());
    }
    list.push(label)?;
    known.insert(label, own + list.len() as u64)?;
    Ok(())
}

/// The labels of steps that have no number yet, in the order in which a proof lists them: that of first use. Each gets the
/// next number.
pub(crate) fn list_labels(
    alloc: Global,
    known: &mut HashMap<u64, u64>,
    own: u64,
    steps: &[Step],
) -> Result<Vec<u64>, AllocError>
    requires own { own < 2 ^ 32 }
    requires steps { length steps.now < 2 ^ 32 }
    ensures table { IfOk result (λ v. (labels : List ℕ) → length labels ≡ own → IsTable (number_in known.old) labels → Lists labels (number_in known.new) v.items steps.now) }
    ensures few { IfOk result (λ v. length v.items ≤ length steps.now) }
{
    let mut list = Vec::new(alloc);
    for step in steps {
        add(known, &mut list, own, *step)?;
    }
    Ok(list)
}
