//! Which statements are meant, and what they rest on.
#![tactic(auto)]

mod applied;
mod closure;
mod laws;
mod marking;
mod part;
mod pattern;
mod trace;

pub use applied::uses;
pub use closure::{axioms, depended_on, dependents, users};
pub use laws::{traces_are_earlier, traces_tell_uses, ways_are_found};
pub use pattern::matches;
pub use trace::Trace;
