//! The command line: words, keywords, and the commands that lines spell.
#![tactic(auto)]

mod argument;
mod command;
mod edits;
mod fault;
mod general;
mod keyword;
mod law;
mod limits;
mod line;
mod number;
mod qualifier;
mod step;
mod take;
mod words;

pub use command::{Command, StepWord};
pub use fault::LineFault;
pub use law::lines_spell_one_command;
pub use limits::MOST_LINE;
pub use line::read_command;
