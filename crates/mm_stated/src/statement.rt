//! Labelled statements.

use mm_tables::Pair;
use mm_tokens::Span;

/// The kinds of labelled statements: `$f`, `$e`, `$a` and `$p` (Metamath book, section 4.1.3).
#[derive(Clone, Copy, Debug, PartialEq, Eq)]
pub enum Kind {
    Float,
    Essential,
    Axiom,
    Theorem,
}

/// A labelled statement: its symbols, its mandatory hypotheses and pairs, where its proof stands, and its description.
#[derive(Drop)]
pub struct Statement {
    pub kind: Kind,
    pub symbols: Vec<u32>,
    pub mandatory: Vec<u32>,
    pub pairs: Vec<Pair>,
    pub from: u64,
    pub to: u64,
    pub described: Option<Span>,
}
