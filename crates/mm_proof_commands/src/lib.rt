//! The commands on the open proof as a whole, and on the session.
#![tactic(auto)]

mod commands;
mod exit;
mod prove;
mod redo;
mod save;
mod show_proof;
mod undo;

pub use commands::answer;
