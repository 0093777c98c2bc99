//! The grammar of a Metamath database: its statements are its tokens, and each is as the language asks.
#![tactic(auto)]

mod laws;

pub use laws::{
    assertions_of_databases_substitute, faults_have_causes, files_of_statements_are_read,
    labels_are_no_symbols, rules_are_followed, statements_are_the_tokens,
};
