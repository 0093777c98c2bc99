//! Proof trees: steps that are known or unknown, in nodes that versions share and that are counted as they are made.
//!
//! A tree has versions. An edit makes a new version, and the nodes that stay the same are shared. A mark names a version: it
//! is a few numbers, and to take one, to go back to it and to go forward takes no memory. A string is kept as it was made;
//! what the bindings of a version since then make of it is found when it is read.
#![tactic(auto)]

mod drawing;
mod fault;
mod floats;
mod fresh;
mod graft;
mod keyed;
mod labelled;
mod lengths;
mod line;
mod node;
mod occurring;
mod plan;
mod premises;
mod renewal;
mod replacing;
mod rows;
mod sources;
#[cfg(test)]
mod tests;
mod timed;
mod tree;
mod writing;

pub use drawing::draws;
pub use fault::{BindFault, GraftFault, ReplaceFault, WorkSpent};
pub use fresh::{fresh_from, variable_of, variables_for};
pub use labelled::OfLabelsFault;
pub use plan::Plan;
pub use premises::premises as hypotheses;
pub use replacing::MOST_PREMISES;
pub use sources::is_source;
pub use std::alloc::AllocError as Memory;
pub use tree::{MOST_LEVELS, MOST_STEPS, MOST_WORKS, Mark, Tree};
