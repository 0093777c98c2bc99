//! The commands on the database and its file.
#![tactic(auto)]

mod call;
mod commands;
mod read;
mod trace;
mod verify;
mod write;

pub use call::Call;
pub use commands::plan;
pub use read::{MOST_FETCHED, load};
