//! The tokens and comments of a Metamath database.
//!
//! A database is a list of bytes. Its tokens are the maximal runs of the bytes 33 to 126, and white space parts them (Metamath book, section 4.1.1).
//! A comment goes from the token `$(` to the next token `$)` (section 4.1.2). Places count bytes from 0.
#![tactic(auto)]

mod bytes;
mod fault;
mod folding;
mod laws;
mod list;
mod pieces;
mod reading;
mod runs;
mod scanner;
mod word;

pub use bytes::{bad_byte, is_graphic, is_white};
pub use fault::TokenFault;
pub use folding::{holds, white_space_folds};
pub use laws::pieces_are_parts;
pub use list::Tokens;
pub use pieces::{Piece, Span, Token};
pub use reading::tokens;
pub use scanner::Scanner;
pub use word::{Word, is_bad_label, is_bad_symbol, word_of};
