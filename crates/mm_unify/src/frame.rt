//! The nodes that wait in a search against a string without work variables.

ghost use Rattle.std.specs.Prelude.{◌≡◌, nat_lt, IfOk};
ghost use Rattle.mm_subst.specs.Applied.{most_symbols};
ghost use Rattle.mm_unify.specs.Forbidden.{forbidden_by};
ghost use Rattle.mm_unify.specs.Parts.{IsPlain};
ghost use Rattle.mm_unify.specs.Frames.{length_by, node_of, with_value, open_value, MayGrow, Adds};

use crate::advance::Open;
use crate::bound::Bound;
use crate::brackets::closes_early;
use crate::waiting::occurrences;
use mm_subst::{Brackets, MOST_SYMBOLS, Memory, WSym};

/// How a node comes from the one before it.
#[derive(Clone, Copy, Debug)]
pub enum Kind {
    /// It is the first node of the search.
    First,
    /// A variable's value ends with a symbol.
    Whole,
    /// A variable's value goes on behind a symbol.
    Longer,
}

/// A node that waits to be visited.
#[derive(Clone, Copy, Debug)]
pub struct Frame {
    pub kind: Kind,
    /// How many variables are bound before it.
    pub depth: usize,
    /// The place of the variable in the pattern, and its number.
    pub at: usize,
    pub number: u32,
    /// Where its value begins in the target, and the last symbol of it.
    pub from: usize,
    pub to: usize,
    /// How many symbols of the pattern under the values are no work variables.
    pub total: usize,
    /// Whether a value closes brackets too early.
    pub early: bool,
}

impl Frame {
    /// Whether a value has more symbols than a string may have.
    pub fn is_too_long(&self) -> bool
        ensures { result ≡ nat_lt most_symbols (length_by self.now.kind self.now.from self.now.to) }
    {
        match self.kind {
            Kind::First => false,
            Kind::Whole => self.to.saturating_sub(self.from) >= MOST_SYMBOLS,
            Kind::Longer => self.to.saturating_sub(self.from) >= MOST_SYMBOLS - 1,
        }
    }
}

/// Adds the nodes in which a variable's value is longer by a symbol: first the one in which it goes on, and behind it,
/// to be visited first, the one in which it ends.
pub fn grow(
    pairs: &Option<Brackets>,
    pattern: &[WSym],
    target: &[WSym],
    path: &[Bound],
    place: Open,
    total: usize,
    early: bool,
    frames: &mut Vec<Frame>,
) -> Result<(), Memory>
    requires plain { IsPlain target.now }
    requires grow { MayGrow (forbidden_by pairs.now) pattern.now target.now path.now place total early }
    ensures { IfOk result (λ _. Adds (forbidden_by pairs.now) pattern.now target.now path.now (node_of pattern.now target.now (with_value target.now path.now place.number (open_value target.now place)) place.to) frames.old.items frames.new.items) }
{
    if place.to == target.len() || total > target.len() || early {
        return Ok(());
    }
    let longer = Frame {
        kind: Kind::Longer,
        depth: path.len(),
        at: place.at,
        number: place.number,
        from: place.from,
        to: place.to,
        total: total + occurrences(WSym::Work(place.number), pattern),
        early: closes_early(pairs, &target[place.from..place.to + 1]),
    };
    frames.push(longer)?;
    frames.push(Frame {
        kind: Kind::Whole,
        ..longer
    })?;
    Ok(())
}
