//! The letters of a compressed proof, one by one.

ghost use Rattle.std.specs.Prelude.{◌≡◌, ◌≤◌, ◌<◌, ◌+◌, ◌^◌, [], ◌∷◌, length, IfSome, IfNone};
ghost use Rattle.mm_tokens.specs.Pieces.{tokens_in};
ghost use Rattle.mm_proof.specs.Reading.{letters_in};

use crate::token::next_token;
use mm_tokens::Scanner;
use std::marker::Model;

/// A byte of the letters, and its place in the database, counted from 0.
#[derive(Clone, Copy)]
pub struct PlacedByte {
    pub place: u64,
    pub byte: u8,
}

/// The letters that are left of a compressed proof: the bytes of its tokens, whatever parts these.
#[derive(Drop)]
pub struct Letters<'a> {
    from: u64,
    proof: &'a [u8],
    at: u64,
    end: u64,
    scanner: Scanner<'a>,
}

impl<'a> Model for Letters<'a> {
    ghost use Rattle.std.specs.Prelude.{List};
    ghost use Rattle.mm_proof.specs.Reading.{Placed};
    ghost use Rattle.mm_proof.specs.LettersLeft.{letters_left, IsHeld};

    ghost Value = { List Placed };

    ghost view = { λ l. letters_left l.from l.proof.now l.at l.end l.scanner };

    ghost invariant = { λ l. IsHeld l.from l.proof.now l.at l.end l.scanner };
}

impl<'a> Letters<'a> {
    /// The letters in what a scan has left of a proof that begins at a place of the database.
    pub(crate) fn new(from: u64, proof: &'a [u8], scanner: Scanner<'a>) -> Letters<'a>
        requires whole { scanner.bytes ≡ proof.now }
        requires fits { from + length proof.now < 2 ^ 64 }
        ensures { result ≡ letters_in from proof.now (tokens_in scanner.entry.left) }
    {
        Letters {
            from,
            proof,
            at: 0,
            end: 0,
            scanner,
        }
    }

    /// The next letter; nothing exactly where none is left.
    pub(crate) fn next(&mut self) -> Option<PlacedByte>
        ensures none { IfNone result (self.old ≡ []) }
        ensures some { IfSome result (λ l. self.old ≡ record { place = l.place; byte = l.byte } ∷ self.new) }
    {
        if self.at == self.end {
            let token = next_token(&mut self.scanner)?;
            self.at = token.start;
            self.end = token.end;
        }
        let at = self.at;
        self.at += 1;
        Some(PlacedByte {
            place: self.from + at,
            byte: self.proof[at as usize],
        })
    }
}
