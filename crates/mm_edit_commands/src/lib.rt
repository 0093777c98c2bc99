//! The commands that edit the open proof.
#![tactic(auto)]

mod assign;
mod delete;
mod edits;
mod improve;
mod initialize;
mod let_text;
mod refusals;
mod replace;
mod step_words;
mod unify;

pub use edits::{Counts, edit};
