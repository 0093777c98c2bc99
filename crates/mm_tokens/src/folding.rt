//! Phrases in texts in which each run of white space counts as one space.

ghost use Rattle.std.specs.Prelude.{◌≡◌, ◌≤◌, ◌<◌, ◌-◌, ◌∷◌, ◌++◌, true, false, All, Some, length, drop, slice_get, slice_index};
ghost use Rattle.mm_tokens.specs.Bytes.{is_white};
ghost use Rattle.mm_tokens.specs.Folding.{folded, folded_after, begins, holds};

use crate::is_white;

/// The first place from `at` on where no white space stands; the length if there is none.
fn past_white(text: &[u8], at: usize) -> usize
    requires { at ≤ length text.now }
    ensures within { result ≤ length text.now }
    ensures same { folded_after true (drop at text.now) ≡ folded (drop result text.now) }
{
    let mut place = at;
    while place < text.len() && is_white(text[place]) {
        place += 1;
    }
    place
}

/// Whether the text from `at` on begins with the phrase.
fn begins(text: &[u8], at: usize, phrase: &[u8]) -> bool
    requires { at ≤ length text.now }
    ensures { result ≡ begins phrase.now (folded (drop at text.now)) }
{
    let mut place = at;
    for wanted in phrase {
        if place == text.len() {
            return false;
        }
        let byte = text[place];
        place += 1;
        if is_white(byte) {
            if *wanted != b' ' {
                return false;
            }
            place = past_white(text, place);
        } else if *wanted != byte {
            return false;
        }
    }
    true
}

/// Whether the phrase, which begins with `(`, stands in the text.
pub fn holds(text: &[u8], phrase: &[u8]) -> bool
    requires { slice_get phrase.now 0 ≡ Some 40 }
    ensures { result ≡ holds phrase.now (folded text.now) }
{
    for (place, byte) in text.iter().enumerate() {
        if *byte == b'(' && begins(text, place, phrase) {
            return true;
        }
    }
    false
}

/// What it is to take each run of white space as one space: a text without white space stays, and a run between other
/// bytes is one space between what these give.
pub fn white_space_folds(front: &[u8], run: &[u8], rest: &[u8])
    ensures none { All (λ b. is_white b ≡ false) front.now → folded front.now ≡ front.now }
    ensures one { 0 < length run.now → All (λ b. is_white b ≡ true) run.now
        → is_white (slice_index front.now (length front.now - 1)) ≡ false → is_white (slice_index rest.now 0) ≡ false
        → folded (front.now ++ (run.now ++ rest.now)) ≡ folded front.now ++ 32 ∷ folded rest.now }
{
    let _ = front;
    let _ = run;
    let _ = rest;
}
