//! The program's arguments.

use mm_session::Word;
use std::alloc::{AllocError, Global};
use std::env;
use std::rt::Env;

/// What the arguments ask for.
#[derive(Drop)]
pub enum Arguments {
    Help,
    Version,
    /// The commands of a session.
    Words(Vec<Word>),
    /// There is no memory for them, or one of them is no text.
    Unread,
}

/// Reads the arguments behind the program's name.
pub fn read_arguments<R: Env + AllocGlobal>(rt: &R) -> Arguments {
    let Ok(mut all) = env::args(rt) else {
        return Arguments::Unread;
    };
    let _program = all.next();
    let Ok(texts) = all.collect::<Vec<String>>(rt.alloc()) else {
        return Arguments::Unread;
    };
    match texts.as_slice() {
        [only] if only.as_str() == "--help" => return Arguments::Help,
        [only] if only.as_str() == "--version" => return Arguments::Version,
        _ => {}
    }
    match words(rt.alloc(), &texts) {
        Ok(words) => Arguments::Words(words),
        Err(_) => Arguments::Unread,
    }
}

fn words(alloc: Global, texts: &[String]) -> Result<Vec<Word>, AllocError> {
    let mut words = Vec::new(alloc);
    for text in texts {
        words.push(Word::new(alloc, text.as_bytes())?)?;
    }
    Ok(words)
}
