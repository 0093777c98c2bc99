//! The bindings of a version, and what they make of a string.

ghost use Rattle.std.specs.Prelude.{◌≡◌, ◌<◌, ◌++◌, ◌∷◌, [], All, IfOk, OnOk, MatchOption, None, Some, drop, length, map};
ghost use Rattle.mm_subst.specs.Substitutions.{applied, value_of};
ghost use Rattle.mm_subst.specs.declared.symbol.WSym.TheVariants.{Work};
ghost use Rattle.mm_plain.specs.Binding.{HasWorkKeys};
ghost use Rattle.mm_tree.specs.Keyed.{value_in};
ghost use Rattle.mm_tree.specs.Lines.{after, string_now};
ghost use Rattle.mm_tree.specs.Reading.{IsFirst, IsBound, meant, weights};

use crate::keyed::Keyed;
use mm_subst::{Subst, WStr, WSym, has_work};
use std::alloc::{AllocError, Global};
use std::marker::Model;
use std::slice;

/// The bindings of a version, the oldest first: first those of the settled version, then those of the drafts.
#[derive(Drop)]
pub struct Line<'a> {
    pub settled: &'a [Subst],
    pub drafts: &'a [Subst],
    pub keyed: &'a Keyed,
}

impl<'a> Model for Line<'a> {
    ghost use Rattle.std.specs.Prelude.{List, ◌++◌};
    ghost use Rattle.mm_subst.specs.Substitutions.{Pairs};

    ghost Value = { List Pairs };

    ghost view = { λ l. l.settled.now ++ l.drafts.now };

    ghost use Rattle.mm_tree.specs.Keyed.{IsKeyed};

    ghost invariant = { λ l. IsKeyed l.keyed.now (l.settled.now ++ l.drafts.now) };
}

impl<'a> Line<'a> {
    /// The same bindings once more.
    pub fn copy(&self, alloc: Global) -> Result<Vec<Subst>, AllocError>
        ensures same { IfOk result (λ v. v.items ≡ self.now) }
        ensures keys { IfOk result (λ v. All HasWorkKeys v.items) }
    {
        let mut copies = Vec::with_capacity(alloc, self.settled.len() + self.drafts.len())?;
        append_copies(alloc, self.settled, &mut copies)?;
        append_copies(alloc, self.drafts, &mut copies)?;
        Ok(copies)
    }

    /// How many bindings there are.
    fn len(&self) -> usize
        ensures { result ≡ length self.now }
    {
        self.settled.len() + self.drafts.len()
    }

    /// The value of a work variable in the binding at a place, counted from 0; `None` where it has none, or is behind the last.
    fn value_in(&self, place: usize, number: u32) -> Option<&WStr>
        ensures { MatchOption result (value_in self.now place (Work number) ≡ None) (λ v. value_in self.now place (Work number) ≡ Some v.now) }
    {
        let settled = self.settled.len();
        if place < settled {
            self.settled[place].get(WSym::Work(number))
        } else if place - settled < self.drafts.len() {
            self.drafts[place - settled].get(WSym::Work(number))
        } else {
            None
        }
    }

    /// The place of the first binding, from a place on, that has a work variable as a key; where none has, a place behind all.
    fn first_with(&self, number: u32, from: usize) -> usize
        ensures { IsFirst self.now (Work number) from result }
    {
        let mut first = self.len().max(from);
        for place in self.keyed.at(number) {
            if from <= *place && *place < first && self.value_in(*place, number).is_some() {
                first = *place;
            }
        }
        first
    }

    /// The value of a work variable in the first binding, from a place on, that has it as a key, and the place after that.
    fn value_from(&self, number: u32, from: usize) -> Option<(&[WSym], usize)>
        ensures { MatchOption result (after (drop from self.now) (Work number ∷ []) ≡ Work number ∷ []) (λ v. IsBound self.now (Work number) from v.0.now v.1) }
    {
        let place = self.first_with(number, from);
        if place >= self.len() {
            return None;
        }
        match self.value_in(place, number) {
            Some(value) => Some((value.symbols(), place + 1)),
            None => None,
        }
    }

    /// What stands for a symbol from a binding on, and from which binding on that is read; `None` where it stands for itself.
    fn bound(&self, symbol: WSym, from: usize) -> Option<(&[WSym], usize)>
        ensures { MatchOption result (after (drop from self.now) (symbol ∷ []) ≡ symbol ∷ []) (λ v. IsBound self.now symbol from v.0.now v.1) }
    {
        let _ = &self.keyed;
        match symbol {
            WSym::Work(number) => self.value_from(number, from),
            _ => None,
        }
    }
}

/// Appends the same bindings once more.
fn append_copies(alloc: Global, bindings: &[Subst], into: &mut Vec<Subst>) -> Result<(), AllocError>
    ensures { OnOk result (into.new.items ≡ into.old.items ++ bindings.now) }
{
    for theta in bindings {
        into.push(theta.copy(alloc)?)?;
    }
    Ok(())
}

/// What stands for a symbol: the value of a key; any other symbol stands for itself.
pub fn value<'a>(sigma: &'a Subst, symbol: &'a WSym) -> &'a [WSym]
    ensures { result.now ≡ value_of sigma.now symbol.now }
{
    match sigma.get(*symbol) {
        Some(value) => value.symbols(),
        None => slice::from_ref(symbol),
    }
}

/// The string with each key replaced by its value, however long it gets.
pub fn replaced(alloc: Global, theta: &Subst, s: &WStr) -> Result<WStr, AllocError>
    ensures { IfOk result (λ t. t ≡ applied theta.now s.now) }
{
    let mut out = Vec::new(alloc);
    for symbol in s.symbols() {
        out.extend_from_slice(value(theta, symbol))?;
    }
    Ok(WStr::from_vec(out))
}

/// Reads the first symbol of a part of a string. What is left of the part, and what stands for the symbol, are then left.
fn read_symbol<'a>(
    line: &'a Line<'a>,
    symbols: &'a [WSym],
    from: usize,
    left: &mut Vec<(&'a [WSym], usize)>,
    out: &mut Vec<WSym>,
) -> Result<(), AllocError>
    ensures same { OnOk result (out.new.items ++ meant line.now (map (λ p. (p.0.now, p.1)) left.new.items) ≡ out.old.items ++ meant line.now (map (λ p. (p.0.now, p.1)) left.old.items ++ (symbols.now, from) ∷ [])) }
    ensures less { OnOk result (weights line.now (map (λ p. (p.0.now, p.1)) left.new.items) < weights line.now (map (λ p. (p.0.now, p.1)) left.old.items ++ (symbols.now, from) ∷ [])) }
{
    let Some((first, rest)) = symbols.split_first() else {
        return Ok(());
    };
    left.push((rest, from))?;
    match line.bound(*first, from) {
        Some(value) => left.push(value)?,
        None => out.push(*first)?,
    }
    Ok(())
}

/// A string from a binding on. Each work variable is looked up, and no binding is gone through.
fn read<'a>(
    alloc: Global,
    line: &'a Line<'a>,
    birth: usize,
    s: &'a WStr,
) -> Result<WStr, AllocError>
    ensures { IfOk result (λ t. t ≡ after (drop birth line.now) s.now) }
{
    let mut out = Vec::new(alloc);
    let mut left = Vec::new(alloc);
    left.push((s.symbols(), birth))?;
    while let Some((symbols, from)) = left.pop() {
        read_symbol(line, symbols, from, &mut left, &mut out)?;
    }
    Ok(WStr::from_vec(out))
}

/// What a string of a birth is in a version. One without work variables is copied as it is.
pub fn string_now(
    alloc: Global,
    line: &Line<'_>,
    birth: usize,
    s: &WStr,
) -> Result<WStr, AllocError>
    ensures { IfOk result (λ t. t ≡ string_now line.now birth s.now) }
{
    if !has_work(s) {
        return s.copy(alloc);
    }
    read(alloc, line, birth, s)
}
