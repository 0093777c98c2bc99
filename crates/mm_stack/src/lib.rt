//! The proof machine: which proofs of a Metamath database are accepted.
//!
//! A proof is a list of steps. A hypothesis pushes its statement. An assertion pops an entry for each of its mandatory
//! hypotheses, and pushes its conclusion under the substitution that makes the hypotheses those entries
//! (Metamath book, section 4.3). A step that refers back pushes what the step pushed that it names (Appendix B).
#![tactic(auto)]

mod accept;
mod differing;
mod instance;
mod laws;
mod machine;
mod outcome;
mod stack;
mod values;

pub use accept::verify;
pub use laws::assertions_substitute;
pub use mm_proof::ProofFault;
pub use outcome::{StackFault, Verdict};
pub use std::alloc::AllocError as Memory;
