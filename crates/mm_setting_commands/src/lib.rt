//! The commands on settings and logs.
#![tactic(auto)]

mod close_log;
mod commands;
mod open_log;
mod set_brackets;
mod set_empty;
mod set_trials;
mod set_undo;

pub use commands::answer;
