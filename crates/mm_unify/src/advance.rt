//! How far a string with work variables goes along with a target.

ghost use Rattle.std.specs.Prelude.{◌≡◌, ◌≤◌, take, length, true};
ghost use Rattle.mm_subst.specs.Symbols.{is_work};
ghost use Rattle.mm_subst.specs.declared.symbol.WSym.TheVariants.{Work};
ghost use Rattle.mm_subst.specs.Substitutions.{applied};
ghost use Rattle.mm_unify.specs.Parts.{IsPlain, AreWithin, parts_of, Arrives};

use crate::bound::{Bound, value};
use crate::waiting::equal_heads;
use mm_subst::WSym;

/// A work variable that is not bound: its place in the pattern, its number, and where its value so far begins and ends
/// in the target.
#[derive(Clone, Copy, Debug)]
pub struct Open {
    pub at: usize,
    pub number: u32,
    pub from: usize,
    pub to: usize,
}

/// Where pattern and target can't go on together.
#[derive(Clone, Copy, Debug)]
pub enum Reached {
    /// The pattern ends, at this place of the target.
    AtEnd(usize),
    /// The pattern has a work variable that is not bound.
    AtOpen(Open),
    /// The pattern has symbols that are no work variables and that the target doesn't have.
    Stuck,
}

fn number_of(symbol: WSym) -> u32
    requires { is_work symbol ≡ true }
    ensures { Work result ≡ symbol }
{
    match symbol {
        WSym::Work(n) | WSym::Const(n) | WSym::Var(n) => n,
    }
}

/// Goes along both strings from places to which they come together.
pub fn advance(pattern: &[WSym], target: &[WSym], path: &[Bound], at: usize, to: usize) -> Reached
    requires plain { IsPlain target.now }
    requires within { AreWithin target.now path.now }
    requires at { at ≤ length pattern.now }
    requires to { to ≤ length target.now }
    requires come { applied (parts_of target.now path.now) (take at pattern.now) ≡ take to target.now }
    ensures { Arrives pattern.now target.now path.now to result }
{
    let mut index = at;
    let mut place = to;
    while index < pattern.len() {
        let Some(symbols) = value(target, path, &pattern[index]) else {
            let number = number_of(pattern[index]);
            return Reached::AtOpen(Open {
                at: index,
                number,
                from: place,
                to: place,
            });
        };
        let heads = equal_heads(symbols, &target[place..]);
        if heads < symbols.len() {
            return Reached::Stuck;
        }
        place += heads;
        index += 1;
    }
    Reached::AtEnd(place)
}
