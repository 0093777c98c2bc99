//! The tokens of a proof.

ghost use Rattle.std.specs.Prelude.{◌≡◌, ◌≤◌, ◌<◌, [], ◌∷◌, length, IfSome, IfNone};
ghost use Rattle.mm_tokens.specs.Pieces.{pieces_of, tokens_in};
ghost use Rattle.mm_proof.specs.Labels.{text_of};
ghost use Rattle.mm_proof.specs.Decoding.{begins_list};

use mm_tokens::{Piece, Scanner, Token};

/// The next token; nothing exactly where none is left. Comments are passed over.
pub(crate) fn next_token(scanner: &mut Scanner<'_>) -> Option<Token>
    ensures none { IfNone result (tokens_in scanner.old.left ≡ []) }
    ensures some { IfSome result (λ t. tokens_in scanner.old.left ≡ t ∷ tokens_in scanner.new.left) }
    ensures start { IfSome result (λ t. t.start < t.end) }
    ensures end { IfSome result (λ t. t.end ≤ length scanner.old.bytes) }
    ensures bytes { scanner.new.bytes ≡ scanner.old.bytes }
    ensures shorter { IfSome result (λ _. length scanner.new.left < length scanner.old.left) }
{
    while let Some(piece) = scanner.next() {
        if let Piece::Token(token) = piece {
            return Some(token);
        }
    }
    None
}

/// The bytes of a token.
pub(crate) fn text_of(proof: &[u8], token: Token) -> &[u8]
    requires start { token.start ≤ token.end }
    requires end { token.end ≤ length proof.now }
    ensures { result.now ≡ text_of proof.now token }
{
    &proof[token.start as usize..token.end as usize]
}

/// Whether the first token of a proof is `(`, with which a compressed one begins.
pub(crate) fn begins_list(proof: &[u8]) -> bool
    ensures { result ≡ begins_list proof.now (tokens_in (pieces_of proof.now)) }
{
    let mut scanner = Scanner::new(proof);
    match next_token(&mut scanner) {
        Some(token) => text_of(proof, token) == b"(".as_slice(),
        None => false,
    }
}
