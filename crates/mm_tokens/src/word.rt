//! The kinds of tokens.

ghost use Rattle.std.specs.Prelude.{◌≡◌, ◌==◌};
ghost use Rattle.std.specs.List.{list_any};
ghost use Rattle.mm_tokens.specs.Words.{keyword_of, word_of, is_label_byte, is_bad_label, is_bad_symbol};

/// What a token outside comments is (Metamath book, section 4.1.1).
#[derive(Clone, Copy, Debug, PartialEq, Eq)]
pub enum Word {
    /// `$c`.
    Constants,
    /// `$v`.
    Variables,
    /// `$f`.
    Float,
    /// `$e`.
    Essential,
    /// `$d`.
    Distinct,
    /// `$a`.
    Axiom,
    /// `$p`.
    Theorem,
    /// `$=`.
    Proof,
    /// `$.`.
    End,
    /// `${`.
    Open,
    /// `$}`.
    Close,
    /// `$[` or `$]`.
    Inclusion,
    /// Any other token that begins with `$`.
    Unknown,
    /// A token that does not begin with `$`.
    Text,
}

/// The keyword of `$` and the byte.
#[tactic(auto, unfolding(crate::specs::Words::keyword_of))]
fn keyword_of(byte: u8) -> Word
    ensures { result ≡ keyword_of byte }
{
    if byte == b'c' {
        Word::Constants
    } else if byte == b'v' {
        Word::Variables
    } else if byte == b'f' {
        Word::Float
    } else if byte == b'e' {
        Word::Essential
    } else if byte == b'd' {
        Word::Distinct
    } else if byte == b'a' {
        Word::Axiom
    } else if byte == b'p' {
        Word::Theorem
    } else if byte == b'=' {
        Word::Proof
    } else if byte == b'.' {
        Word::End
    } else if byte == b'{' {
        Word::Open
    } else if byte == b'}' {
        Word::Close
    } else if byte == b'[' || byte == b']' {
        Word::Inclusion
    } else {
        Word::Unknown
    }
}

/// What a token is.
#[tactic(auto, unfolding(crate::specs::Words::word_of))]
pub fn word_of(text: &[u8]) -> Word
    ensures { result ≡ word_of text.now }
{
    if text.is_empty() || text[0] != b'$' {
        Word::Text
    } else if text.len() == 2 {
        keyword_of(text[1])
    } else {
        Word::Unknown
    }
}

fn is_label_byte(byte: u8) -> bool
    ensures { result ≡ is_label_byte byte }
{
    (b'a' <= byte && byte <= b'z')
        || (b'A' <= byte && byte <= b'Z')
        || (b'0' <= byte && byte <= b'9')
        || byte == b'-'
        || byte == b'_'
        || byte == b'.'
}

/// Whether the text holds a byte that no label has: one other than letters, digits, `-`, `_` and `.`.
#[tactic(auto, unfolding(crate::specs::Words::is_bad_label))]
pub fn is_bad_label(text: &[u8]) -> bool
    ensures { result ≡ is_bad_label text.now }
{
    text.iter().any(|byte| !is_label_byte(*byte))
}

/// Whether the text holds `$` after its first byte, as no symbol does.
#[tactic(auto, unfolding(crate::specs::Words::is_bad_symbol))]
pub fn is_bad_symbol(text: &[u8]) -> bool
    ensures { result ≡ is_bad_symbol text.now }
{
    if text.is_empty() {
        false
    } else {
        has_dollar(&text[1..])
    }
}

fn has_dollar(text: &[u8]) -> bool
    ensures { result ≡ list_any (λ b. b == 36) text.now }
{
    text.iter().any(|byte| *byte == b'$')
}
