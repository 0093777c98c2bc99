//! The one scan over a database's bytes.

ghost use Rattle.std.specs.Prelude.{◌≡◌, ◌≤◌, ◌+◌, [], ◌∷◌, length, IfSome, IfNone};
ghost use Rattle.mm_tokens.specs.Runs.{IsBoundary};
ghost use Rattle.mm_tokens.specs.Pieces.{pieces_after, pieces_of, PieceStandsIn};

use crate::pieces::{Piece, Span, Token};
use crate::runs::{closing, first_graphic, opens, run_end};
use std::marker::Model;

/// A piece, and the place after it.
#[derive(Clone, Copy)]
struct Cut {
    piece: Piece,
    end: usize,
}

/// The first piece from `at` on; nothing exactly where there is none.
fn first_piece(bytes: &[u8], at: usize) -> Option<Cut>
    requires within { at ≤ length bytes.now }
    requires boundary { IsBoundary bytes.now at }
    ensures none { IfNone result (pieces_after bytes.now at ≡ []) }
    ensures some { IfSome result (λ c. pieces_after bytes.now at ≡ c.piece ∷ pieces_after bytes.now c.end) }
    ensures stands { IfSome result (λ c. PieceStandsIn (length bytes.now) c.piece) }
    ensures end { IfSome result (λ c. c.end ≤ length bytes.now) }
    ensures end_boundary { IfSome result (λ c. IsBoundary bytes.now c.end) }
{
    let first = first_graphic(bytes, at);
    if first == bytes.len() {
        return None;
    }
    let end = run_end(bytes, first);
    let start = first as u64;
    if !opens(bytes, first, end) {
        let token = Token {
            start,
            end: end as u64,
        };
        return Some(Cut {
            piece: Piece::Token(token),
            end,
        });
    }
    let Some(close) = closing(bytes, end) else {
        return Some(Cut {
            piece: Piece::Open(start),
            end: bytes.len(),
        });
    };
    let end = close + 2;
    let comment = Span {
        start,
        end: end as u64,
    };
    Some(Cut {
        piece: Piece::Comment(comment),
        end,
    })
}

/// A scan over a database's bytes: the pieces that are left, cut one by one and stored nowhere.
#[derive(Drop)]
pub struct Scanner<'a> {
    bytes: &'a [u8],
    at: usize,
}

impl<'a> Model for Scanner<'a> {
    ghost use Rattle.std.specs.Prelude.{◌≤◌, length};
    ghost use Rattle.mm_tokens.specs.Runs.{IsBoundary};
    ghost use Rattle.mm_tokens.specs.Pieces.{pieces_after};
    ghost use Rattle.mm_tokens.specs.Scan.{Scan};

    ghost Value = { Scan };

    ghost view = { λ s. record { bytes = s.bytes.now; left = pieces_after s.bytes.now s.at } };

    ghost invariant = { λ s. (s.at ≤ length s.bytes.now) × IsBoundary s.bytes.now s.at };
}

impl<'a> Scanner<'a> {
    /// A scan from the first byte on.
    pub fn new(bytes: &'a [u8]) -> Scanner<'a>
        ensures { result ≡ record { bytes = bytes.now; left = pieces_of bytes.now } }
    {
        Scanner { bytes, at: 0 }
    }

    /// The next piece; nothing exactly where none is left, and then nothing changes.
    pub fn next(&mut self) -> Option<Piece>
        ensures none { IfNone result (self.old.left ≡ []) }
        ensures unchanged { IfNone result (self.new ≡ self.old) }
        ensures some { IfSome result (λ piece. self.old.left ≡ piece ∷ self.new.left) }
        ensures bytes { self.new.bytes ≡ self.old.bytes }
        ensures stands { IfSome result (PieceStandsIn (length self.old.bytes)) }
        ensures shorter { IfSome result (λ _. length self.old.left ≡ length self.new.left + 1) }
    {
        let found = first_piece(self.bytes, self.at)?;
        self.at = found.end;
        Some(found.piece)
    }
}
