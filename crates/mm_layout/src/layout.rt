//! The text of a normal proof as it grows.

ghost use Rattle.std.specs.Prelude.{◌≡◌, [], ◌∷◌, ◌++◌, List, ℕ, IfOk, OnOk, OnErr};
ghost use Rattle.mm_layout.specs.Laid.{laid};
ghost use Rattle.mm_layout.specs.Normal.{fits, normal_text};

use std::alloc::{AllocError, Global};
use std::marker::Model;

/// The greatest length of a line, in bytes, without its LF. A token that is too long for it has a line of its own.
pub const MOST_COLUMNS: usize = 79;

/// The text of a normal proof, which is given its tokens one by one. A line begins with six spaces, and one space parts its
/// tokens. Each line follows a LF, and one space follows the last.
#[derive(Drop)]
pub struct Layout {
    text: Vec<u8>,
    column: usize,
}

impl Model for Layout {
    ghost use Rattle.mm_layout.specs.Laid.{Laid};

    ghost Value = { Laid };

    ghost view = { λ l. record { text = l.text.items; column = l.column } };
}

impl Layout {
    /// The text with no token so far. This takes no memory.
    pub fn new(alloc: Global) -> Layout
        ensures { result ≡ laid [] }
    {
        Layout {
            text: Vec::new(alloc),
            column: MOST_COLUMNS,
        }
    }

    /// Lays one more token. Where that is refused the text is as before.
    pub fn token(&mut self, token: &[u8]) -> Result<(), AllocError>
        ensures ok { OnOk result ((ts : List (List ℕ)) → self.old ≡ laid ts → self.new ≡ laid (ts ++ token.now ∷ [])) }
        ensures err { OnErr result (self.new ≡ self.old) }
    {
        if fits(self.column, token) {
            append(&mut self.text, b" ", token)?;
            self.column += 1 + token.len();
        } else {
            append(&mut self.text, b"\n      ", token)?;
            self.column = 6 + token.len();
        }
        Ok(())
    }

    /// The whole text, of the tokens that were laid.
    pub fn finish(self) -> Result<Vec<u8>, AllocError>
        ensures { IfOk result (λ v. (ts : List (List ℕ)) → self ≡ laid ts → v.items ≡ normal_text ts) }
    {
        let Layout { text, column: _ } = self;
        let mut text = text;
        text.push(b' ')?;
        Ok(text)
    }
}

/// Appends a token behind what parts it from the text. Where that is refused the text is as before.
fn append(text: &mut Vec<u8>, gap: &[u8], token: &[u8]) -> Result<(), AllocError>
    ensures ok { OnOk result (text.new.items ≡ text.old.items ++ gap.now ++ token.now) }
    ensures err { OnErr result (text.new.items ≡ text.old.items) }
{
    let before = text.len();
    text.extend_from_slice(gap)?;
    let done = text.extend_from_slice(token);
    if done.is_err() {
        text.truncate(before);
    }
    done
}

/// Whether a token fits on a line that has so many bytes, behind a space.
fn fits(column: usize, token: &[u8]) -> bool
    ensures { result ≡ fits column token.now }
{
    column < MOST_COLUMNS && token.len() < MOST_COLUMNS - column
}
