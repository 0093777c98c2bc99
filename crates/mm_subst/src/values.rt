//! A substitution applied to the values of another.

ghost use Rattle.mm_subst.specs.Applied.{AreApplied};
ghost use Rattle.mm_subst.specs.Substitutions.{with_values};

use crate::fault::TooLongOrMemory;
use crate::replace::apply;
use crate::subst::Subst;
use std::alloc::Global;

/// The keys of `sigma` in their order, each with its value after `theta` is applied to it. It is refused exactly where
/// some value then has more than `MOST_SYMBOLS` symbols.
pub fn apply_to_values(
    alloc: Global,
    theta: &Subst,
    sigma: &Subst,
) -> Result<Subst, TooLongOrMemory>
    ensures { AreApplied result (with_values theta.now sigma.now) }
{
    let mut out = Subst::new(alloc);
    for (key, value) in sigma.pairs() {
        let value = apply(alloc, theta, value)?;
        out.put(alloc, *key, value)?;
    }
    Ok(out)
}
