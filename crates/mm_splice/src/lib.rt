//! Putting another text in place of a theorem's proof.
//!
//! A database is a list of bytes. Where the bytes between the `$=` and the `$.` of one theorem are replaced by a text of
//! labels and white space, the database is still read, and says the same of every other statement.
#![tactic(auto)]

mod fault;
mod laws;
mod replace;
mod text;

pub use fault::SpliceFault;
pub use laws::{
    last_saves_decide, saves_decide_verdicts, saves_overlay_the_file, splicing_keeps,
    splicing_keeps_verdicts,
};
pub use replace::splice;
pub use text::is_proof_text;
