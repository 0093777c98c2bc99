//! Accepted proofs are loaded.
//!
//! Where the proof machine accepts the text of a theorem's proof, loading makes of this text a complete proof tree, which
//! keeps the pairs of variables that must differ.
#![tactic(auto)]

mod laws;

pub use laws::accepted_proofs_are_loaded;
