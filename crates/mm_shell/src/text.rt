ghost use Rattle.std.specs.Prelude.{◌≡◌, ◌+◌, ◌≤◌, ◌++◌, IfOk, codes, length};
ghost use Rattle.std.specs.Fmt.{decimal};
ghost use Rattle.mm_shell.specs.Lines.{counts_text, numbered};
ghost use Rattle.mm_shell.specs.Texts.{setting_text};

use crate::word::Word;
use arrayvec::ArrayVec;
use itoa::Buffer;
use mm_base::Memory;
use std::alloc::Global;
use std::marker::Model;

/// The text of a reply: a few bytes that take no memory, then fixed ones, and then others. It is seen as all its bytes.
#[derive(Drop)]
pub struct Text {
    front: ArrayVec<u8, 64>,
    words: &'static [u8],
    rest: Vec<u8>,
}

impl Model for Text {
    ghost use Rattle.std.specs.Prelude.{List, ℕ, ◌++◌};

    ghost Value = { List ℕ };

    ghost view = { λ t. t.front.items ++ (t.words.now ++ t.rest.items) };
}

impl Text {
    /// A text of fixed bytes alone. It takes no memory.
    pub fn fixed(alloc: Global, words: &'static [u8]) -> Text
        ensures { result ≡ words.now }
    {
        Text {
            front: ArrayVec::new(),
            words,
            rest: Vec::new(alloc),
        }
    }

    /// The fixed bytes, and then the others.
    pub fn new(words: &'static [u8], rest: Vec<u8>) -> Text
        ensures { result ≡ words.now ++ rest.items }
    {
        Text {
            front: ArrayVec::new(),
            words,
            rest,
        }
    }

    /// The counts of a proof's steps. It takes no memory.
    #[tactic(auto, unfolding(crate::specs::Lines::counts_text))]
    pub fn counts(alloc: Global, steps: u32, unknown: u32, pending: u32) -> Text
        ensures { result ≡ counts_text steps unknown pending }
    {
        let mut front = ArrayVec::new();
        push_all(&mut front, b"Steps ");
        push_short(&mut front, steps);
        push_all(&mut front, b", unknown ");
        push_short(&mut front, unknown);
        push_all(&mut front, b", pending ");
        push_short(&mut front, pending);
        Text {
            front,
            words: b".\n",
            rest: Vec::new(alloc),
        }
    }

    /// What a setting is, as a number. It takes no memory.
    #[tactic(auto, unfolding(crate::specs::Texts::setting_text))]
    pub fn setting(alloc: Global, before: &'static [u8], n: u32) -> Text
        requires { length before.now ≤ 20 }
        ensures { result ≡ setting_text before.now n }
    {
        let mut front = ArrayVec::new();
        push_all(&mut front, before);
        push_short(&mut front, n);
        Text {
            front,
            words: b".\n",
            rest: Vec::new(alloc),
        }
    }

    /// A refusal of fixed words. It takes no memory.
    #[tactic(auto, unfolding(crate::specs::Lines::numbered))]
    pub fn refusal(alloc: Global, number: u8, words: &'static [u8]) -> Text
        ensures { result ≡ numbered number words.now }
    {
        let mut front = ArrayVec::new();
        push_refusal(&mut front, number);
        Text {
            front,
            words,
            rest: Vec::new(alloc),
        }
    }

    /// A refusal with a number between its words. It takes no memory.
    #[tactic(auto, unfolding(crate::specs::Lines::numbered))]
    pub fn refusal_at(
        alloc: Global,
        number: u8,
        before: &'static [u8],
        at: u32,
        words: &'static [u8],
    ) -> Text
        requires { length before.now ≤ 20 }
        ensures { result ≡ numbered number (before.now ++ (decimal at ++ words.now)) }
    {
        let mut front = ArrayVec::new();
        push_refusal(&mut front, number);
        push_all(&mut front, before);
        push_short(&mut front, at);
        Text {
            front,
            words,
            rest: Vec::new(alloc),
        }
    }

    /// A refusal of fixed words and then other bytes.
    #[tactic(auto, unfolding(crate::specs::Lines::numbered))]
    pub fn refusal_with(number: u8, words: &'static [u8], rest: Vec<u8>) -> Text
        ensures { result ≡ numbered number (words.now ++ rest.items) }
    {
        let mut front = ArrayVec::new();
        push_refusal(&mut front, number);
        Text { front, words, rest }
    }

    /// A refusal with a word between its words.
    pub fn refusal_of(
        alloc: Global,
        number: u8,
        words: &'static [u8],
        word: &Word<'_>,
        end: &'static [u8],
    ) -> Result<Text, Memory>
        ensures { IfOk result (λ text. text ≡ numbered number (words.now ++ (word.now ++ end.now))) }
    {
        let mut rest = word.bytes().to_vec(alloc)?;
        rest.extend_from_slice(end)?;
        Ok(Text::refusal_with(number, words, rest))
    }

    /// Its three parts, which together are its bytes.
    pub fn pieces(&self) -> (&[u8], &'static [u8], &[u8])
        ensures { self.now ≡ result.0.now ++ (result.1.now ++ result.2.now) }
    {
        (self.front.as_slice(), self.words, &self.rest)
    }
}

// Appends the number of a refusal.
fn push_refusal(text: &mut ArrayVec<u8, 64>, number: u8)
    requires { length text.old.items ≤ 0 }
    ensures text { text.new.items ≡ text.old.items ++ (codes "?C" ++ (decimal number ++ codes ": ")) }
    ensures fits { length text.new.items ≤ 24 }
{
    push_all(text, b"?C");
    push_number(text, u64::from(number));
    push_all(text, b": ");
}

// Appends the digits of a number.
fn push_number(text: &mut ArrayVec<u8, 64>, number: u64)
    requires { length text.old.items ≤ 24 }
    ensures text { text.new.items ≡ text.old.items ++ decimal number }
    ensures fits { length text.new.items ≤ length text.old.items + 20 }
{
    let mut buffer = Buffer::new();
    push_all(text, buffer.format(number).as_bytes());
}

// Appends the digits of a number below 2^32.
fn push_short(text: &mut ArrayVec<u8, 64>, number: u32)
    requires { length text.old.items ≤ 54 }
    ensures text { text.new.items ≡ text.old.items ++ decimal number }
    ensures fits { length text.new.items ≤ length text.old.items + 10 }
{
    let mut buffer = Buffer::new();
    push_all(text, buffer.format(number).as_bytes());
}

// Appends bytes.
fn push_all(text: &mut ArrayVec<u8, 64>, bytes: &[u8])
    requires { length text.old.items + length bytes.now ≤ 64 }
    ensures { text.new.items ≡ text.old.items ++ bytes.now }
{
    if text.try_extend_from_slice(bytes).is_err() {
        unreachable!();
    }
}
