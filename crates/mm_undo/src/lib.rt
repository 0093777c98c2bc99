//! Undo and redo: the versions of a proof that came before, and those that were undone.
#![tactic(auto)]

mod history;
mod laws;

pub use history::{History, Rings};
pub use laws::{edits_keep_histories, redos_lead_forward, undos_lead_back};
pub use std::alloc::AllocError as Memory;
