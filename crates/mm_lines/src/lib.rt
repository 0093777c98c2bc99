//! The lines of an input, however its reads cut it.
//!
//! A line is the bytes up to LF. One CR directly before the LF is no part of it. A last line without LF counts unless it is empty.
#![tactic(auto)]

mod chunk;
mod cut;
mod front;
mod next;
mod reader;

pub use next::{Next, Stopped};
pub use reader::LineReader;
