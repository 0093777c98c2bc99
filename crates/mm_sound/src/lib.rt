//! Complete proofs are accepted by the proof machine.
//!
//! A proof tree spells the steps of the machine in postorder. Where the tree is a valid and complete proof of a theorem,
//! and keeps the pairs of variables that must differ, the machine accepts these steps.
#![tactic(auto)]

mod laws;

pub use laws::{
    accepted_proofs_are_trees, complete_proofs_are_accepted,
    complete_proofs_have_no_work_variables, complete_proofs_run, compressed_proofs_are_accepted,
    unknown_steps_leave_a_proof_incomplete, written_proofs_are_accepted,
    written_proofs_spell_their_steps,
};
