//! The texts that may stand as proofs.

ghost use Rattle.std.specs.List.{list_any};
ghost use Rattle.std.specs.Prelude.{◌≡◌, ◌==◌, ◌||◌, true};
ghost use Rattle.mm_tokens.specs.Bytes.{is_bad};
ghost use Rattle.mm_splice.specs.Splicing.{is_proof_text};

use mm_tokens::{is_graphic, is_white};

/// Whether no proof's text may have the byte: no database may, or it is a `$`.
fn is_foreign(byte: u8) -> bool
    ensures { result ≡ (is_bad byte || byte == 36) }
{
    (!is_graphic(byte) && !is_white(byte)) || byte == b'$'
}

fn has_foreign(text: &[u8]) -> bool
    ensures { result ≡ list_any (λ b. is_bad b || b == 36) text.now }
{
    text.iter().any(|byte| is_foreign(*byte))
}

/// Whether a text may stand as a proof: it begins and ends with white space, and has neither a byte that no database may
/// have nor a `$`. Labels and `?`, parted and enclosed by white space, are such a text.
pub fn is_proof_text(text: &[u8]) -> bool
    ensures { result ≡ is_proof_text text.now }
{
    if text.is_empty() {
        return false;
    }
    is_white(text[0]) && is_white(text[text.len() - 1]) && !has_foreign(text)
}
