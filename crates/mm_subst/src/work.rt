//! Work variables by their names.

ghost use Rattle.std.specs.Prelude.{◌≡◌, ◌<◌, ◌^◌, true};
ghost use Rattle.mm_subst.specs.Parsing.{is_digit, are_digits, is_numeral, number_below, work_of};

use crate::symbol::WSym;

fn is_digit(byte: u8) -> bool
    ensures { result ≡ is_digit byte }
{
    b'0' <= byte && byte <= b'9'
}

fn are_digits(bytes: &[u8]) -> bool
    ensures { result ≡ are_digits bytes.now }
{
    bytes.iter().all(|byte| is_digit(*byte))
}

/// Whether these are decimal digits, the first of which is there and is not 0.
fn is_numeral(bytes: &[u8]) -> bool
    ensures { result ≡ is_numeral bytes.now }
{
    !bytes.is_empty() && bytes[0] > b'0' && are_digits(bytes)
}

/// The number that digits write, if it is below `next`.
fn number_below(digits: &[u8], next: u32) -> Option<u32>
    requires { is_numeral digits.now ≡ true }
    ensures { result ≡ number_below next digits.now }
{
    let next = u64::from(next);
    let mut number: u64 = 0;
    for digit in digits {
        if number >= next {
            return None;
        }
        number = 10 * number + u64::from(*digit - b'0');
    }
    if number < next {
        Some(number as u32)
    } else {
        None
    }
}

/// The work variable that a word names, `$` and its number without leading zeros; `None` where its number is not below
/// `next`, and for any other word.
pub fn work_variable(word: &[u8], next: u32) -> Option<WSym>
    ensures { result ≡ work_of next word.now }
{
    match word {
        [b'$', digits @ ..] => {
            if is_numeral(digits) {
                number_below(digits, next).map(WSym::Work)
            } else {
                None
            }
        }
        _ => None,
    }
}
