//! What a database is cut into.

/// The place of a token: from byte `start` up to, but not with, byte `end`, counted from 0.
#[derive(Clone, Copy, Debug, PartialEq, Eq)]
pub struct Token {
    pub start: u64,
    pub end: u64,
}

/// The place of a comment, with its `$(` and its `$)`: from byte `start` up to, but not with, byte `end`, counted from 0.
#[derive(Clone, Copy, Debug, PartialEq, Eq)]
pub struct Span {
    pub start: u64,
    pub end: u64,
}

/// A piece of a database.
#[derive(Clone, Copy, Debug, PartialEq, Eq)]
pub enum Piece {
    /// A token outside comments.
    Token(Token),
    /// A comment.
    Comment(Span),
    /// A comment that is not ended: the place of its `$(`. No piece follows it.
    Open(u64),
}
