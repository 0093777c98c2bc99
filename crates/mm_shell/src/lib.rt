//! What commands answer: the state of a session, refusals, reports and changes as data, and their texts.
#![tactic(auto)]

mod answer;
mod apply;
mod checks;
mod choices;
mod find;
mod laws;
mod listing;
mod names;
mod open_proof;
mod refusal;
mod refusal_texts;
mod report;
mod report_texts;
mod state;
mod statements;
mod steps;
mod strings;
mod text;
mod verdict;
mod word;

pub use answer::{Change, Done, Saving};
pub use apply::apply_change;
pub use checks::{Check, Checks};
pub use choices::{Choices, choices_of};
pub use find::{
    find_database, find_proof, find_statement, find_theorem, is_closed, is_forbidden, label_of,
};
pub use laws::{fitting_answers_keep_states_sound, fitting_saves_keep_theorems};
pub use names::symbol_text;
pub use open_proof::OpenProof;
pub use refusal::Refusal;
pub use refusal_texts::refusal_text;
pub use report::Report;
pub use report_texts::report_text;
pub use state::{FIRST_BRACKETS, FIRST_TRIALS, FIRST_UNDO_DEPTH, State};
pub use statements::Statements;
pub use strings::push_string;
pub use text::Text;
pub use word::{DatabaseRef, ProofRef, Word};
