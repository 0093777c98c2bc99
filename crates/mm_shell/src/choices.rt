//! The unifiers of a step, among which UNIFY STEP chooses by a number.

ghost use Rattle.std.specs.Prelude.{◌≡◌, ◌∷◌, ◌++◌, [], IfOk, OnOk, take};
ghost use Rattle.std.specs.Cmp.Lexicographic.{pointwise};
ghost use Rattle.mm_subst.specs.Symbols.{is_same};
ghost use Rattle.mm_shell.specs.Choices.{choice_text, choices_text, most_choices, value_line};

use crate::strings::{push_string, push_symbol};
use itoa::Buffer;
use mm_base::Memory;
use mm_scope::Database;
use mm_subst::{Subst, WStr, WSym};
use std::alloc::Global;
use std::marker::Model;

/// No more choices are told.
const MOST_CHOICES: usize = 20;

/// The text of the choices that a refusal tells first; it may have none. It is seen as its bytes.
#[derive(Drop)]
pub struct Choices {
    text: Vec<u8>,
}

impl Model for Choices {
    ghost use Rattle.std.specs.Prelude.{List, ℕ};

    ghost Value = { List ℕ };

    ghost view = { λ c. c.text.items };
}

impl Choices {
    /// Of no choices. This takes no memory.
    pub fn none(alloc: Global) -> Choices
        ensures { result ≡ [] }
    {
        Choices {
            text: Vec::new(alloc),
        }
    }

    /// Its bytes.
    pub fn bytes(&self) -> &[u8]
        ensures { result.now ≡ self.now }
    {
        self.text.as_slice()
    }
}

// Whether a string is this symbol alone.
fn is_alone(value: &WStr, symbol: WSym) -> bool
    ensures { result ≡ pointwise is_same value.now (symbol ∷ []) }
{
    matches!(value.symbols(), [only] if only.is_same(symbol))
}

// Appends the line of a work variable and its value.
#[tactic(auto, unfolding(crate::specs::Choices::value_line))]
fn push_value(database: &Database, pair: &(WSym, WStr), into: &mut Vec<u8>) -> Result<(), Memory>
    ensures { OnOk result (into.new.items ≡ into.old.items ++ value_line database.now pair.now) }
{
    let (key, value) = pair;
    if is_alone(value, *key) {
        return Ok(());
    }
    into.extend_from_slice(b"  ")?;
    push_symbol(database, *key, into)?;
    into.extend_from_slice(b" = ")?;
    push_string(database, value.symbols(), into)?;
    into.push(b'\n')?;
    Ok(())
}

// Appends the lines of a choice.
#[tactic(auto, unfolding(crate::specs::Choices::choice_text))]
fn push_choice(
    database: &Database,
    number: usize,
    unifier: &Subst,
    into: &mut Vec<u8>,
) -> Result<(), Memory>
    ensures { OnOk result (into.new.items ≡ into.old.items ++ choice_text database.now number unifier.now) }
{
    let mut buffer = Buffer::new();
    into.extend_from_slice(b"Choice ")?;
    into.extend_from_slice(buffer.format(number).as_bytes())?;
    into.push(b'\n')?;
    for pair in unifier.pairs() {
        push_value(database, pair, into)?;
    }
    Ok(())
}

// The first of some unifiers, of which no more are told.
fn first_choices(found: &[Subst]) -> &[Subst]
    ensures { result.now ≡ take most_choices found.now }
{
    if found.len() > MOST_CHOICES {
        &found[..MOST_CHOICES]
    } else {
        found
    }
}

/// The first of some unifiers as choices, counted from 1.
pub fn choices_of(alloc: Global, database: &Database, found: &[Subst]) -> Result<Choices, Memory>
    ensures { IfOk result (λ c. c ≡ choices_text database.now found.now) }
{
    let told = first_choices(found);
    let mut text = Vec::new(alloc);
    for (place, unifier) in told.iter().enumerate() {
        push_choice(database, place + 1, unifier, &mut text)?;
    }
    Ok(Choices { text })
}
