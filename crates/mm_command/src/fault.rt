//! Why a line spells no command.

ghost use Rattle.std.specs.Prelude.{◌≡◌};

/// The first word that doesn't fit, and why.
#[derive(Clone, Copy, Debug, PartialEq, Eq)]
pub struct LineFault {
    /// 1: no keyword of its place. 2: the beginning of several keywords. 3: wrong, or missing.
    pub number: u8,
    /// The word's number in the line, from 1; a missing word has the number after the last.
    pub word: u32,
}

// C3 for the word of this number.
pub fn wrong(word: u32) -> LineFault
    ensures { result ≡ record { number = 3; word = word } }
{
    LineFault { number: 3, word }
}
