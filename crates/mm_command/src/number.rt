//! Numbers of 1 to 10 digits.

ghost use Rattle.std.specs.Prelude.{◌≡◌, ◌==◌, true};
ghost use Rattle.std.specs.List.{list_all};
ghost use Rattle.mm_command.specs.Grammar.{begins_with, is_digit, is_number, number_of};

fn is_digit(byte: u8) -> bool
    ensures { result ≡ is_digit byte }
{
    b'0' <= byte && byte <= b'9'
}

fn has_only_digits(word: &[u8]) -> bool
    ensures { result ≡ list_all is_digit word.now }
{
    word.iter().all(|b| is_digit(*b))
}

/// Whether the word has 1 to 10 digits and nothing else.
pub fn is_number(word: &[u8]) -> bool
    ensures { result ≡ is_number word.now }
{
    1 <= word.len() && word.len() <= 10 && has_only_digits(word)
}

/// The number that the digits say.
#[tactic(auto, unfolding(crate::specs::Grammar::number_of))]
pub fn number_of(word: &[u8]) -> u64
    requires { is_number word.now ≡ true }
    ensures { result ≡ number_of word.now }
{
    let mut number = 0u64;
    for byte in word {
        number = 10 * number + u64::from(*byte - b'0');
    }
    number
}

/// Whether the word's first byte is a digit.
pub fn begins_with_digit(word: &[u8]) -> bool
    ensures { result ≡ begins_with is_digit word.now }
{
    match word {
        [] => false,
        [first, ..] => is_digit(*first),
    }
}

/// Whether the word's first byte is `0`.
pub fn begins_with_zero(word: &[u8]) -> bool
    ensures { result ≡ begins_with (λ d. d == 48) word.now }
{
    match word {
        [] => false,
        [first, ..] => *first == b'0',
    }
}
