//! Letters of compressed proofs.

ghost use Rattle.std.specs.Prelude.{◌≡◌};
ghost use Rattle.mm_proof.specs.Numbers.{letter_of, IsDigit};

/// What a byte is among the letters of a compressed proof.
#[derive(Clone, Copy)]
pub enum Letter {
    /// `A` to `T`: a last digit, 1 to 20.
    Last(u64),
    /// `U` to `Y`: a leading digit, 1 to 5.
    Lead(u64),
    /// `Z`: the step before it has a tag.
    Tag,
    /// `?`: an unknown step.
    Query,
    /// Any other byte.
    Other,
}

/// What a byte is among letters.
#[tactic(auto, unfolding(crate::specs::Numbers::letter_of))]
pub(crate) fn letter_of(byte: u8) -> Letter
    ensures value { result ≡ letter_of byte }
    ensures digit { IsDigit result }
{
    if 65 <= byte && byte <= 84 {
        Letter::Last(byte as u64 - 64)
    } else if 85 <= byte && byte <= 89 {
        Letter::Lead(byte as u64 - 84)
    } else if byte == 90 {
        Letter::Tag
    } else if byte == 63 {
        Letter::Query
    } else {
        Letter::Other
    }
}
