//! The work variables of strings.

ghost use Rattle.std.specs.Prelude.{◌≡◌, ◌++◌, List, IfOk};
ghost use Rattle.mm_subst.specs.declared.symbol.WSym.{WSym};
ghost use Rattle.mm_unify.specs.Variables.{numbers, with_number};

use mm_subst::{Memory, WSym};
use std::alloc::Global;

/// Adds a number to rising numbers, if it is not among them.
fn add_number(numbers: &mut Vec<u32>, n: u32) -> Result<(), Memory>
    ensures { IfOk result (λ _. numbers.new.items ≡ with_number n numbers.old.items) }
{
    let mut i = 0;
    while i < numbers.len() && numbers[i] < n {
        i += 1;
    }
    if i < numbers.len() && numbers[i] == n {
        return Ok(());
    }
    numbers.insert(i, n)?;
    Ok(())
}

/// Adds the numbers of a string's work variables.
fn add_numbers(out: &mut Vec<u32>, s: &[WSym]) -> Result<(), Memory>
    ensures { IfOk result (λ _. (rest : List WSym) → out.old.items ≡ numbers rest → out.new.items ≡ numbers (s.now ++ rest)) }
{
    let mut i = s.len();
    while i > 0 {
        i -= 1;
        if let WSym::Work(n) = s[i] {
            add_number(out, n)?;
        }
    }
    Ok(())
}

/// The numbers of the work variables of two strings, in order.
pub fn numbers_of(alloc: Global, a: &[WSym], b: &[WSym]) -> Result<Vec<u32>, Memory>
    ensures { IfOk result (λ v. v.items ≡ numbers (a.now ++ b.now)) }
{
    let mut numbers = Vec::new(alloc);
    add_numbers(&mut numbers, b)?;
    add_numbers(&mut numbers, a)?;
    Ok(numbers)
}
