//! Numbers in letters.

ghost use Rattle.std.specs.Prelude.{◌≡◌, ◌<◌, ◌≤◌, ◌++◌, length, OnOk};
ghost use Rattle.mm_proof.specs.Numbers.{leading, letters_of};

use std::alloc::AllocError;

/// Appends the leading letters of a quotient.
fn push_leading(out: &mut Vec<u8>, quotient: u64) -> Result<(), AllocError>
    ensures { OnOk result (out.new.items ≡ out.old.items ++ leading quotient) }
{
    if quotient == 0 {
        return Ok(());
    }
    push_leading(out, (quotient - 1) / 5)?;
    out.push(85 + ((quotient - 1) % 5) as u8)?;
    Ok(())
}

/// Appends the letters of a number.
pub(crate) fn push_number(out: &mut Vec<u8>, number: u64) -> Result<(), AllocError>
    requires { 0 < number }
    ensures { OnOk result (out.new.items ≡ out.old.items ++ letters_of number) }
{
    push_leading(out, (number - 1) / 20)?;
    out.push(65 + ((number - 1) % 20) as u8)?;
    Ok(())
}

/// How many letters a number has.
pub(crate) fn number_len(number: u64) -> u64
    requires { 0 < number }
    ensures value { result ≡ length (letters_of number) }
    ensures small { result ≤ 29 }
{
    let mut quotient = (number - 1) / 20;
    let mut count = 1;
    while quotient > 0 {
        quotient = (quotient - 1) / 5;
        count += 1;
    }
    count
}
