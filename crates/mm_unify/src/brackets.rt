//! What brackets forbid.

ghost use Rattle.std.specs.Prelude.{◌≡◌, not};
ghost use Rattle.std.specs.List.{list_any};
ghost use Rattle.mm_subst.specs.Brackets.{has_number, is_opened_first, are_balanced};
ghost use Rattle.mm_unify.specs.Forbidden.{are_opened_first, heeded, forbidden_by};

use crate::listing::Rule;
use crate::values::Values;
use mm_scope::Database;
use mm_subst::{Bracket, Brackets, WSym};

/// The pairs that a rule heeds.
pub fn heeded(db: &Database, rule: Rule) -> Option<Brackets>
    ensures { result ≡ heeded db.now rule }
{
    if rule.brackets {
        Some(Brackets::of(db))
    } else {
        None
    }
}

fn is_numbered(number: Option<u32>, symbol: WSym) -> bool
    ensures { result ≡ has_number number symbol }
{
    match (number, symbol) {
        (Some(n), WSym::Const(m) | WSym::Var(m)) => m == n,
        _ => false,
    }
}

/// Whether no prefix closes more than it opens.
fn is_opened_first(bracket: &Bracket, symbols: &[WSym]) -> bool
    ensures { result ≡ is_opened_first bracket.now symbols.now }
{
    let mut open: usize = 0;
    for symbol in symbols {
        if is_numbered(bracket.opening, *symbol) {
            open += 1;
        }
        if is_numbered(bracket.closing, *symbol) {
            if open == 0 {
                return false;
            }
            open -= 1;
        }
    }
    true
}

fn are_opened_first(pairs: &Brackets, symbols: &[WSym]) -> bool
    ensures { result ≡ are_opened_first pairs.now symbols.now }
{
    is_opened_first(&pairs.round, symbols)
        && is_opened_first(&pairs.curly, symbols)
        && is_opened_first(&pairs.square, symbols)
}

/// Whether a value closes too early.
pub fn closes_early(pairs: &Option<Brackets>, symbols: &[WSym]) -> bool
    ensures { result ≡ (forbidden_by pairs.now).so_far symbols.now }
{
    match pairs {
        None => false,
        Some(pairs) => !are_opened_first(pairs, symbols),
    }
}

/// Whether some value closes too early.
pub fn some_forbidden(pairs: &Option<Brackets>, values: &Values) -> bool
    ensures { result ≡ list_any (λ q. (forbidden_by pairs.now).so_far q.1) values.now }
{
    match pairs {
        None => false,
        Some(pairs) => values
            .each
            .iter()
            .any(|value| !are_opened_first(pairs, value.value.symbols())),
    }
}

/// Whether some value is not balanced.
pub fn some_unbalanced(pairs: &Option<Brackets>, values: &Values) -> bool
    ensures { result ≡ list_any (λ q. (forbidden_by pairs.now).at_end q.1) values.now }
{
    match pairs {
        None => false,
        Some(pairs) => values
            .each
            .iter()
            .any(|value| !pairs.are_balanced(&value.value)),
    }
}
