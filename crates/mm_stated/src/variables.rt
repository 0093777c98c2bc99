//! The variables that are active at a statement, in the order of its pairs.

ghost use Rattle.std.specs.Prelude.{◌≡◌, ◌&&◌, not, filter, IfOk};
ghost use Rattle.std.specs.List.{range_with_len};
ghost use Rattle.mm_tables.specs.Marked.{is_marked};
ghost use Rattle.mm_stated.specs.Ordered.{ordered_variables};

use crate::mandatory::mark_all;
use mm_tables::Marks;
use std::alloc::{AllocError, Global};

/// The numbers below `count` with an active mark and no other, rising.
fn unfloated(
    alloc: Global,
    active: &Marks,
    floated: &Marks,
    count: u32,
) -> Result<Vec<u32>, AllocError>
    ensures { IfOk result (λ v. v.items ≡ filter (λ n. is_marked active.now n && not (is_marked floated.now n)) (range_with_len 0 count)) }
{
    (0..count)
        .filter(|n| active.is_marked(*n) && !floated.is_marked(*n))
        .collect(alloc)
}

/// The variables of the active `$f` in order, and then the other active ones by number.
pub fn ordered_variables(
    alloc: Global,
    floated: &[u32],
    active: &[u32],
    count: u32,
) -> Result<Vec<u32>, AllocError>
    ensures { IfOk result (λ v. v.items ≡ ordered_variables floated.now active.now count) }
{
    let mut is_floated = Marks::new(alloc);
    mark_all(&mut is_floated, floated)?;
    let mut is_active = Marks::new(alloc);
    mark_all(&mut is_active, active)?;
    let others = unfloated(alloc, &is_active, &is_floated, count)?;
    let mut variables = Vec::from_slice(alloc, floated)?;
    variables.extend_from_slice(others.as_slice())?;
    Ok(variables)
}
