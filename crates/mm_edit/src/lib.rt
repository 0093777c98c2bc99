//! The commands that edit a proof.
#![tactic(auto)]

mod assign_step;
mod building;
mod checks;
mod deletion;
mod edit_fault;
mod fresh;
mod going_back;
mod improvement;
mod initialization;
mod label_list;
mod laws;
mod laying;
mod let_value;
mod listing;
mod loading;
mod quiet;
mod replacement;
mod unification;
mod unify_rounds;

pub use assign_step::assign;
pub use deletion::{delete, delete_floats};
pub use edit_fault::EditFault;
pub use improvement::{improve, improve_all};
pub use initialization::{initialize, initialize_all};
pub use laws::{
    accepted_edits_keep_proofs_valid, built_proofs_are_loaded, unify_all_leaves_no_only_unifier,
};
pub use let_value::{let_step, let_variable};
pub use loading::{LoadFault, load};
pub use replacement::replace;
pub use unification::{UnifyFault, unify_step};
pub use unify_rounds::unify_all;
