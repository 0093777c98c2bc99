//! The proofs of a Metamath database: the steps that their texts spell, in the normal and in the compressed form.
//!
//! A normal proof is a list of labels in postorder (Metamath book, section 4.1.4). A compressed one is a list of labels and
//! letters, which number the steps (Appendix B).
#![tactic(auto)]

mod arity;
mod compacting;
mod decoder;
mod encoder;
mod extent;
mod fault;
mod flat;
mod label;
mod laws;
mod letter;
mod letters;
mod listing;
mod number;
mod reader;
mod sizing;
mod spelling;
mod step;
mod table;
mod token;
mod written;

pub use decoder::decode;
pub use encoder::{compressed_len, encode_compressed, encode_normal};
pub use extent::{MOST_TOLD, Shape};
pub use fault::ProofFault;
pub use laws::{compressed_proofs_come_back, letters_come_back, normal_proofs_come_back};
pub use sizing::shape;
pub use std::alloc::AllocError as Memory;
pub use step::{ProofStep, ProofSteps, StepKind};
