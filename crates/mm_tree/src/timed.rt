//! Trees as they are kept: each string with its birth.

use mm_subst::{Subst, WStr};
use sqlite_items::Items;

/// A string, and its birth: how many bindings there were in the version in which it was made.
#[derive(Drop)]
pub struct Text {
    pub birth: usize,
    pub string: WStr,
}

/// A substitution, and its birth.
#[derive(Drop)]
pub struct Values {
    pub birth: usize,
    pub pairs: Subst,
}

/// A tree whose strings have births, as contracts see a node.
#[derive(Drop)]
pub enum TimedTree {
    Unknown(Text),
    Known(Text, u32, Values, Items<TimedTree>),
}
