//! Whether a match may be one.

ghost use Rattle.std.specs.Prelude.{◌≡◌, ◌≤◌, not, length, IfOk};
ghost use Rattle.std.specs.List.{list_all};
ghost use Rattle.mm_tables.specs.Distinct.{are_distinct};
ghost use Rattle.mm_subst.specs.Brackets.{are_balanced};
ghost use Rattle.mm_unify.specs.Forbidden.{forbidden_by};
ghost use Rattle.mm_chart.specs.Items.{are_parted, if_variable};
ghost use Rattle.mm_chart.specs.Items.{fits, value};
ghost use Rattle.mm_chart.specs.Charts.{AreWithin, goals_of};

use crate::grammar::Rules;
use crate::table::Part;
use mm_subst::{Brackets, Memory, WStr, WSym};
use mm_tables::Parted;
use std::alloc::Global;

/// The value of a variable that occurred before.
pub fn value_of<'a>(parts: &[Part], text: &'a [WSym], key: usize) -> &'a [WSym]
    requires { AreWithin text.now parts.now }
    ensures within { length result.now ≤ length text.now }
    ensures value { result.now ≡ value (goals_of text.now parts.now) key }
{
    match parts.get(key) {
        Some(part) => &text[part.from..part.to],
        None => &[],
    }
}

/// Whether a symbol is no variable, or one that must differ from u.
fn differs(groups: &Parted, u: u32, symbol: WSym) -> bool
    ensures { result ≡ if_variable (λ v. are_distinct groups.now u v) symbol }
{
    match symbol {
        WSym::Var(v) => groups.are_distinct(u, v),
        WSym::Const(_) | WSym::Work(_) => true,
    }
}

/// Whether a variable must differ from each variable of a string.
fn differs_from_all(groups: &Parted, u: u32, other: &[WSym]) -> bool
    ensures { result ≡ list_all (if_variable (λ v. are_distinct groups.now u v)) other.now }
{
    for symbol in other {
        if !differs(groups, u, *symbol) {
            return false;
        }
    }
    true
}

/// Whether a symbol is no variable, or one that must differ from each variable of a string.
fn is_parted(groups: &Parted, symbol: WSym, other: &[WSym]) -> bool
    ensures { result ≡ if_variable (λ u. list_all (if_variable (λ v. are_distinct groups.now u v)) other.now) symbol }
{
    match symbol {
        WSym::Var(u) => differs_from_all(groups, u, other),
        WSym::Const(_) | WSym::Work(_) => true,
    }
}

/// Whether each variable of one string must differ from each of another.
pub fn are_parted(groups: &Parted, one: &[WSym], other: &[WSym]) -> bool
    ensures { result ≡ are_parted groups.now one.now other.now }
{
    for symbol in one {
        if !is_parted(groups, *symbol, other) {
            return false;
        }
    }
    true
}

/// Whether the values of each distinct pair are parted.
fn are_apart(groups: &Parted, pairs: &[(usize, usize)], parts: &[Part], text: &[WSym]) -> bool
    requires { AreWithin text.now parts.now }
    ensures { result ≡ list_all (λ p. are_parted groups.now (value (goals_of text.now parts.now) p.0) (value (goals_of text.now parts.now) p.1)) pairs.now }
{
    for pair in pairs {
        if !are_parted(
            groups,
            value_of(parts, text, pair.0),
            value_of(parts, text, pair.1),
        ) {
            return false;
        }
    }
    true
}

/// Whether all values are balanced.
fn all_balanced(
    alloc: Global,
    heeded: &Brackets,
    parts: &[Part],
    text: &[WSym],
) -> Result<bool, Memory>
    requires { AreWithin text.now parts.now }
    ensures { IfOk result (λ b. b ≡ list_all (λ g. not (not (are_balanced heeded.now g.1))) (goals_of text.now parts.now)) }
{
    for part in parts {
        let value = WStr::new(alloc, &text[part.from..part.to])?;
        if !heeded.are_balanced(&value) {
            return Ok(false);
        }
    }
    Ok(true)
}

/// Whether no value is forbidden.
fn are_allowed(
    alloc: Global,
    brackets: &Option<Brackets>,
    parts: &[Part],
    text: &[WSym],
) -> Result<bool, Memory>
    requires { AreWithin text.now parts.now }
    ensures { IfOk result (λ b. b ≡ list_all (λ g. not ((forbidden_by brackets.now).at_end g.1)) (goals_of text.now parts.now)) }
{
    match brackets {
        None => Ok(true),
        Some(heeded) => all_balanced(alloc, heeded, parts, text),
    }
}

/// Whether a match may be one.
pub fn fits(
    alloc: Global,
    rules: &Rules,
    pairs: &[(usize, usize)],
    parts: &[Part],
    text: &[WSym],
) -> Result<bool, Memory>
    requires { AreWithin text.now parts.now }
    ensures { IfOk result (λ b. b ≡ fits rules.now pairs.now (goals_of text.now parts.now)) }
{
    if !are_allowed(alloc, &rules.brackets, parts, text)? {
        return Ok(false);
    }
    Ok(are_apart(&rules.groups, pairs, parts, text))
}
