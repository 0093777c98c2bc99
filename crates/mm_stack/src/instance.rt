//! Instances of symbol strings, under the values that a table finds on a stack.

ghost use Rattle.std.specs.Prelude.{◌≡◌, true, not, nat_lt, length, IfOk};
ghost use Rattle.std.specs.Str.{bytes_eq};
ghost use Rattle.mm_stack.specs.Seats.{value_in};
ghost use Rattle.mm_stack.specs.Substitution.{instance};
ghost use Rattle.mm_stack.specs.Running.{most_symbols};

use crate::stack::Stack;
use crate::values::Values;
use mm_scope::MOST_SYMBOLS;
use std::alloc::AllocError;
use std::slice;

/// What stands for a symbol.
pub fn value<'a>(values: &Values, stack: &'a Stack, symbol: &'a u32) -> &'a [u32]
    ensures { result.now ≡ value_in values.now stack.now.stack symbol.now }
{
    match values.get(*symbol) {
        Some(entry) => match stack.entry(entry) {
            [_, value @ ..] => value,
            [] => &[],
        },
        None => slice::from_ref(symbol),
    }
}

/// Makes `out` the instance of the symbols; `false` exactly where that is too long.
pub fn fill(
    values: &Values,
    stack: &Stack,
    symbols: &[u32],
    out: &mut Vec<u32>,
) -> Result<bool, AllocError>
    ensures fits { IfOk result (λ fits. fits ≡ not (nat_lt most_symbols (length (instance (value_in values.now stack.now.stack) symbols.now)))) }
    ensures value { IfOk result (λ fits. fits ≡ true → out.new.items ≡ instance (value_in values.now stack.now.stack) symbols.now) }
{
    out.clear();
    for symbol in symbols {
        let value = value(values, stack, symbol);
        if value.len() > MOST_SYMBOLS - out.len() {
            return Ok(false);
        }
        out.extend_from_slice(value)?;
    }
    Ok(true)
}

/// Whether the entry is the instance of the symbols.
pub fn is_instance(values: &Values, stack: &Stack, symbols: &[u32], entry: &[u32]) -> bool
    ensures { result ≡ bytes_eq (instance (value_in values.now stack.now.stack) symbols.now) entry.now }
{
    let mut rest = entry;
    for symbol in symbols {
        match rest.strip_prefix(value(values, stack, symbol)) {
            Some(left) => rest = left,
            None => return false,
        }
    }
    rest.is_empty()
}
