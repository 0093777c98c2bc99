//! Where the next part may end that has a proof.

ghost use Rattle.std.specs.Prelude.{◌≡◌, ◌<◌, ◌≤◌, ◌+◌, ◌∷◌, ◌⊎◌, ℕ, length, slice_index_or};
ghost use Rattle.mm_chart.specs.declared.grammar.Item.TheVariants.{New};
ghost use Rattle.mm_chart.specs.Charts.{AreAble, AreIdle, EndsOutside, Nowhere, no_assertion, no_hypothesis, no_symbol};

use crate::grammar::{Hypothesis, Item, Rules};
use crate::table::Rows;
use mm_subst::WSym;

fn lesser_of(one: usize, other: usize) -> usize
    ensures first { result ≤ one }
    ensures second { result ≤ other }
    ensures either { (result ≡ one) ⊎ (result ≡ other) }
{
    if other < one { other } else { one }
}

/// A place up to which no match of the conclusion ends, of those that end after `last`.
#[cycle(reach)]
fn reach(text: &[WSym], rows: &Rows, items: &[Item], at: usize, last: usize, none: usize) -> usize
    requires within { at ≤ length text.now }
    requires none { none ≡ length text.now + 1 }
    requires last { last < none }
    ensures later { last < result }
    ensures nowhere { Nowhere text.now rows.now items.now at last result }
{
    let Some((item, rest)) = items.split_first() else {
        return if last < at { at } else { none };
    };
    match *item {
        Item::Fixed(symbol) => {
            if at < text.len() && text[at].is_same(symbol) {
                reach(text, rows, rest, at + 1, last, none)
            } else {
                none
            }
        }
        Item::Again(_) => last + 1,
        Item::New(code) => reach_on(text, rows, code, rest, at, last, none),
    }
}

/// The same at the first occurrence of a variable.
#[cycle(reach)]
fn reach_on(
    text: &[WSym],
    rows: &Rows,
    code: WSym,
    rest: &[Item],
    at: usize,
    last: usize,
    none: usize,
) -> usize
    requires within { at ≤ length text.now }
    requires none { none ≡ length text.now + 1 }
    requires last { last < none }
    ensures later { last < result }
    ensures nowhere { Nowhere text.now rows.now (New code ∷ rest.now) at last result }
{
    let mut end = none;
    let mut place = at;
    while let Some((next, _)) = rows.next(at, code, place, text.len()) {
        end = lesser_of(end, reach(text, rows, rest, next, last, none));
        place = next;
    }
    end
}

fn end_of_hypothesis(h: &Hypothesis, at: usize, last: usize, none: usize) -> usize
    requires ordered { at ≤ last }
    requires last { last < none }
    ensures later { last < result }
    ensures outside { EndsOutside at last result (length h.now.goal.1) }
{
    let count = h.symbols.len();
    if last - at < count && count < none - at {
        at + count
    } else {
        none
    }
}

/// A place up to which no hypothesis ends, of those that end after `last`.
fn hypothesis_end(rules: &Rules, at: usize, last: usize, none: usize) -> usize
    requires ordered { at ≤ last }
    requires last { last < none }
    ensures later { last < result }
    ensures most { result ≤ none }
    ensures outside { (k : ℕ) → k < length rules.now.hypotheses → EndsOutside at last result (length (slice_index_or rules.now.hypotheses k no_hypothesis).goal.1) }
{
    let mut end = none;
    for number in 0..rules.hypotheses.len() {
        end = lesser_of(
            end,
            end_of_hypothesis(&rules.hypotheses[number], at, last, none),
        );
    }
    end
}

/// A place up to which no match of an assertion ends, of those that end after `last`.
fn use_end(
    rules: &Rules,
    text: &[WSym],
    rows: &Rows,
    able: &[usize],
    at: usize,
    last: usize,
    none: usize,
) -> usize
    requires within { at < length text.now }
    requires none { none ≡ length text.now + 1 }
    requires ordered { at ≤ last }
    requires last { last < none }
    requires able { AreAble rules.now (slice_index_or text.now at no_symbol) able.now }
    ensures later { last < result }
    ensures nowhere { (k : ℕ) → k < length able.now → Nowhere text.now rows.now (slice_index_or rules.now.assertions (slice_index_or able.now k 0) no_assertion).items at last result }
{
    let mut end = none;
    for i in 0..able.len() {
        let items = rules.assertions[able[i]].items.as_slice();
        end = lesser_of(end, reach(text, rows, items, at, last, none));
    }
    end
}

/// The next cell of a row after `last` that may get an entry.
pub fn next_cell(
    rules: &Rules,
    text: &[WSym],
    rows: &Rows,
    able: &[usize],
    at: usize,
    last: usize,
) -> usize
    requires within { at < length text.now }
    requires ordered { at ≤ last }
    requires last { last ≤ length text.now }
    requires able { AreAble rules.now (slice_index_or text.now at no_symbol) able.now }
    ensures later { last < result }
    ensures most { result ≤ length text.now + 1 }
    ensures idle { AreIdle rules.now text.now rows.now at last result }
{
    let none = text.len() + 1;
    let one = hypothesis_end(rules, at, last, none);
    let other = use_end(rules, text, rows, able, at, last, none);
    lesser_of(one, other)
}
