//! The session: commands are read from words and run, and their answers are written to a screen.
#![tactic(auto)]

mod advance;
mod commands;
mod law;
mod output;
mod run;
mod session;
mod turn;
mod word;

pub use law::{
    accepted_is_proved, edits_are_undone, kept_is_enough, only_saves_change_a_database,
    proofs_in_hand_are_valid, read_is_whole, refused_commands_change_nothing,
    saved_theorems_are_accepted,
};
pub use session::{SessionEnd, run_session};
pub use word::Word;

#[cfg(test)]
mod tests;
