//! Saving a proof into the database.
//!
//! A saved proof is a normal one, with a label for each step in postorder, or a compressed one; a step that is unknown is `?`.
//! Its text takes the place of the theorem's old proof; all other bytes of the database stay. A proof may be saved as complete
//! where each step is known, none is pending, and it has no clash: it keeps the variables apart that must differ.
#![tactic(auto)]

mod clash;
mod clashes;
mod fault;
mod form;
mod laws;
mod save;
mod steps;
mod text;

pub use clash::Clash;
pub use clashes::first_clash;
pub use fault::SaveFault;
pub use form::Form;
pub use laws::{
    incomplete_saves_are_incomplete, other_theorems_stay, proofs_without_clash_are_apart,
    saved_proofs_are_accepted, saved_proofs_are_read_back, saves_keep_the_outside,
    valid_proofs_stay_valid,
};
pub use save::save_tree;
