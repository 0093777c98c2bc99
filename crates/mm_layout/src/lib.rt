//! The layout of a normal proof's text: its tokens on lines of at most 79 bytes, as far as they fit.
#![tactic(auto)]

mod laws;
mod layout;

pub use laws::{lines_are_filled, texts_are_clean, tokens_come_back};
pub use layout::{Layout, MOST_COLUMNS};
pub use std::alloc::AllocError as Memory;
