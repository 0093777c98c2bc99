//! Proof trees as contracts see them: their steps, and when a proof is valid for a theorem of a database; and the variables
//! of a statement, for which a step has values.
//!
//! No function of the program takes or makes a plain tree; it is what a tree of nodes means.
#![tactic(auto)]

mod laws;
mod plain;
mod statements;
mod variables;

pub use laws::{
    fresh_work_variables_fit, heights_add_up, labels_begin_valid_proofs, parts_are_nested,
    rows_follow_from_labels, sizes_add_up, substitutions_keep_the_shape,
    valid_proofs_are_instances, valid_proofs_have_valid_parts, valid_proofs_name_own_statements,
    valid_proofs_stay_valid, valid_proofs_stay_valid_under_substitutions,
    work_variables_alone_change,
};
pub use plain::Plain;
pub use statements::{labels_find_statements, statements_are_formed, statements_are_strings};
pub use variables::variables_for;
