//! The token list of a database.

ghost use Rattle.std.specs.Prelude.{◌≡◌, ◌≤◌, ◌<◌, ◌-◌, length, slice_get, slice_range, Some, Ok};
ghost use Rattle.std.specs.Option.{option_map};
ghost use Rattle.mm_tokens.specs.Reading.{tokens_of};

use crate::pieces::{Span, Token};
use std::marker::Model;

/// The tokens outside comments, and the comments, each in order, by their places.
#[derive(Drop)]
pub struct Tokens {
    pub(crate) tokens: Vec<Token>,
    pub(crate) comments: Vec<Span>,
}

impl Model for Tokens {
    ghost use Rattle.mm_tokens.specs.Contents.{Contents};

    ghost Value = { Contents };

    ghost view = { λ t. record { tokens = t.tokens.items; comments = t.comments.items } };
}

impl Tokens {
    /// How many tokens there are.
    pub fn count(&self) -> u64
        ensures { result ≡ length self.now.tokens }
    {
        self.tokens.len() as u64
    }

    /// The place of token number `number`, counted from 1.
    pub fn token(&self, number: u64) -> Token
        requires low { 1 ≤ number }
        requires high { number ≤ length self.now.tokens }
        ensures { slice_get self.now.tokens (number - 1) ≡ Some result }
    {
        self.tokens[(number - 1) as usize]
    }

    /// The bytes of token number `number`, counted from 1. `bytes` are those that were read.
    pub fn text<'a>(&self, bytes: &'a [u8], number: u64) -> &'a [u8]
        requires low { 1 ≤ number }
        requires high { number ≤ length self.now.tokens }
        requires read { tokens_of bytes.now ≡ Ok self.now }
        ensures { option_map (λ t. slice_range bytes.now t.start t.end) (slice_get self.now.tokens (number - 1)) ≡ Some result.now }
    {
        let token = self.token(number);
        &bytes[token.start as usize..token.end as usize]
    }

    /// The comments, in order.
    pub fn comments(&self) -> &[Span]
        ensures { result.now ≡ self.now.comments }
    {
        self.comments.as_slice()
    }
}
