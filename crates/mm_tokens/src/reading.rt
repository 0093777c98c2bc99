//! Reading a whole token list.

ghost use Rattle.std.specs.Prelude.{◌≡◌, position, IfSome};
ghost use Rattle.mm_tokens.specs.Bytes.{is_bad};
ghost use Rattle.mm_tokens.specs.Reading.{Gives, tokens_of};

use crate::bytes::bad_byte;
use crate::fault::TokenFault;
use crate::list::Tokens;
use crate::pieces::Piece;
use crate::scanner::Scanner;
use std::alloc::Global;

/// The tokens outside comments and the comments of a database, or its first fault.
///
/// A comment that is not ended shows at the end, so a bad byte is the first fault wherever it stands.
/// A run `$(` inside a comment is text (Metamath book, section 4.1.2, on comments).
///
/// # Errors
///
/// `BadByte` for the first byte that is neither 33 to 126 nor white space; else `CommentOpen` for the `$(` that no `$)` ends;
/// `Memory` where memory runs out.
#[tactic(auto, unfolding(crate::specs::Reading::tokens_of))]
pub fn tokens(alloc: Global, bytes: &[u8]) -> Result<Tokens, TokenFault>
    ensures value { Gives result (tokens_of bytes.now) }
    // A bad byte is found also where memory runs out.
    ensures bad_byte { IfSome (position is_bad bytes.now) (λ place. result ≡ Err (TokenFault.BadByte place)) }
{
    if let Some(place) = bad_byte(bytes) {
        return Err(TokenFault::BadByte(place as u64));
    }
    let mut tokens = Vec::new(alloc);
    let mut comments = Vec::new(alloc);
    let mut scanner = Scanner::new(bytes);
    while let Some(piece) = scanner.next() {
        match piece {
            Piece::Token(token) => tokens.push(token)?,
            Piece::Comment(comment) => comments.push(comment)?,
            Piece::Open(place) => return Err(TokenFault::CommentOpen(place)),
        }
    }
    Ok(Tokens { tokens, comments })
}
