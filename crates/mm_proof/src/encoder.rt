//! The texts of a proof.

ghost use Rattle.std.specs.Prelude.{◌≡◌, ◌<◌, ◌+◌, ◌++◌, ◌^◌, length, map, IfOk, IfSome, OnOk};
ghost use Rattle.std.specs.List.{AllByRecursion};
ghost use Rattle.mm_scope.specs.Contents.{labels_of};
ghost use Rattle.mm_layout.specs.Normal.{lines_of, behind_feeds, normal_text};
ghost use Rattle.mm_proof.specs.Steps.{IsOwn};
ghost use Rattle.mm_proof.specs.Encoding.{word_of, normal_proof, list_words, compressed_proof, one_line, feed_before, laid_letters};
ghost use Rattle.mm_proof.specs.Spelling.{names_len};
ghost use Rattle.mm_proof.specs.Encodes.{OfTree, Spells};

use crate::compacting::compact;
use crate::flat::flat;
use crate::listing::{list_labels, own_numbers};
use crate::spelling::{Spelt, letters, letters_len, numbers};
use crate::step::{ProofStep, ProofSteps};
use mm_layout::Layout;
use mm_scope::{Database, StmtId};
use std::alloc::{AllocError, Global};

/// More steps, or more hypotheses, than this have no numbers: memory is wanted first.
const MOST_WRITTEN: usize = (1 << 31) - 1;

/// How many letters a line has; the last may have fewer.
const LETTERS_ON_A_LINE: usize = 72;

/// The labels that a compressed proof lists, by their numbers, and its steps by theirs.
#[derive(Drop)]
pub struct Spelled {
    pub list: Vec<u64>,
    pub steps: Vec<Spelt>,
}

/// What a compressed proof lists and spells.
fn spell_out(
    alloc: Global,
    db: &Database,
    at: StmtId,
    steps: &[ProofStep],
) -> Result<Spelled, AllocError>
    requires at { at.0 < length (labels_of db.now) }
    requires own { AllByRecursion (λ s. IsOwn db.now s.kind) steps.now }
    ensures spells { IfOk result (λ s. OfTree db.now steps.now (λ t. Spells db.now at.0 t s)) }
    ensures few { IfOk result (λ s. length s.steps.items < 2 ^ 32) }
{
    let labels = flat(alloc, db, steps)?;
    let written = compact(alloc, db, labels.as_slice())?;
    let frame = db.frame(at);
    let mandatory = frame.mandatory.as_slice();
    if written.len() > MOST_WRITTEN || mandatory.len() > MOST_WRITTEN {
        return Err(AllocError);
    }
    let mut known = own_numbers(alloc, mandatory)?;
    let own = mandatory.len() as u64;
    let list = list_labels(alloc, &mut known, own, written.as_slice())?;
    let count = own + list.len() as u64;
    let steps = numbers(alloc, &known, count, written.as_slice())?;
    few(Spelled { list, steps })
}

/// What is spelled, unless that are too many steps.
fn few(spelled: Spelled) -> Result<Spelled, AllocError>
    ensures same { IfOk result (λ s. s ≡ spelled) }
    ensures few { IfOk result (λ s. length s.steps.items < 2 ^ 32) }
{
    if spelled.steps.len() > MOST_WRITTEN {
        return Err(AllocError);
    }
    Ok(spelled)
}

/// What is written for a label by its number: the label of the statement whose id is one less; `?` where there is none.
#[tactic(auto, using(crate::proofs::Worded::word_none, crate::proofs::Worded::word_some))]
fn word(db: &Database, label: u64) -> &[u8]
    ensures { result.now ≡ word_of db.now label }
{
    let count = db.count() as u64;
    if label == 0 || label > count {
        return b"?";
    }
    db.label(StmtId((label - 1) as u32))
}

/// The text of a normal proof whose steps fold to one label tree (Metamath book, section 4.1.4).
pub fn encode_normal(
    alloc: Global,
    db: &Database,
    at: StmtId,
    steps: &ProofSteps,
) -> Result<Vec<u8>, AllocError>
    requires { AllByRecursion (λ s. IsOwn db.now s.kind) steps.now }
    ensures { IfOk result (λ v. OfTree db.now steps.now (λ t. v.items ≡ normal_proof db.now t)) }
{
    let _ = at;
    let labels = flat(alloc, db, steps.steps())?;
    lay_labels(alloc, db, labels.as_slice())
}

/// The text of a normal proof with these labels.
fn lay_labels(alloc: Global, db: &Database, labels: &[u64]) -> Result<Vec<u8>, AllocError>
    ensures { IfOk result (λ v. v.items ≡ normal_text (map (word_of db.now) labels.now)) }
{
    let mut layout = Layout::new(alloc);
    for label in labels {
        layout.token(word(db, *label))?;
    }
    layout.finish()
}

/// Appends the list of a compressed proof, filled into lines, each behind a LF.
fn lay_list(alloc: Global, db: &Database, list: &[u64]) -> Result<Vec<u8>, AllocError>
    ensures { IfOk result (λ v. v.items ≡ behind_feeds (lines_of (list_words db.now list.now))) }
{
    let mut layout = Layout::new(alloc);
    layout.token(b"(")?;
    for label in list {
        layout.token(word(db, *label))?;
    }
    layout.token(b")")?;
    let mut text = layout.finish()?;
    text.truncate(text.len().saturating_sub(1));
    Ok(text)
}

/// Appends a LF and six spaces before each letter with which a line begins.
fn push_feed(text: &mut Vec<u8>, place: usize) -> Result<(), AllocError>
    ensures { OnOk result (text.new.items ≡ text.old.items ++ feed_before place) }
{
    if place % LETTERS_ON_A_LINE == 0 {
        text.extend_from_slice(b"\n      ")?;
    }
    Ok(())
}

/// Appends letters, 72 on a line.
fn lay_letters(text: &mut Vec<u8>, letters: &[u8]) -> Result<(), AllocError>
    ensures { OnOk result (text.new.items ≡ text.old.items ++ laid_letters 0 letters.now) }
{
    let mut place = 0;
    while place < letters.len() {
        push_feed(text, place)?;
        text.push(letters[place])?;
        place += 1;
    }
    Ok(())
}

/// The text of a compressed proof whose steps fold to one label tree (Metamath book, Appendix B). A subtree that has children
/// and no unknown step is written once, and named where it comes again.
pub fn encode_compressed(
    alloc: Global,
    db: &Database,
    at: StmtId,
    steps: &ProofSteps,
) -> Result<Vec<u8>, AllocError>
    requires at { at.0 < length (labels_of db.now) }
    requires own { AllByRecursion (λ s. IsOwn db.now s.kind) steps.now }
    ensures { IfOk result (λ v. OfTree db.now steps.now (λ t. v.items ≡ compressed_proof db.now at.0 t)) }
{
    let spelled = spell_out(alloc, db, at, steps.steps())?;
    let mut text = lay_list(alloc, db, spelled.list.as_slice())?;
    let letters = letters(alloc, spelled.steps.as_slice())?;
    lay_letters(&mut text, letters.as_slice())?;
    text.push(b' ')?;
    Ok(text)
}

/// How many bytes labels have, with a space behind each.
fn words_len(db: &Database, list: &[u64]) -> Option<u64>
    ensures { IfSome result (λ n. n ≡ names_len (word_of db.now) list.now) }
{
    let mut count: u64 = 0;
    for label in list {
        count = count
            .checked_add(word(db, *label).len() as u64)?
            .checked_add(1)?;
    }
    Some(count)
}

/// How many bytes the compressed form of a proof has on one line, `( labels ) letters`, with one space between tokens. The
/// text is not made. Its steps fold to one label tree.
pub fn compressed_len(
    alloc: Global,
    db: &Database,
    at: StmtId,
    steps: &ProofSteps,
) -> Result<u64, AllocError>
    requires at { at.0 < length (labels_of db.now) }
    requires own { AllByRecursion (λ s. IsOwn db.now s.kind) steps.now }
    ensures { IfOk result (λ n. OfTree db.now steps.now (λ t. n ≡ length (one_line db.now at.0 t))) }
{
    let spelled = spell_out(alloc, db, at, steps.steps())?;
    let Some(words) = words_len(db, spelled.list.as_slice()) else {
        return Err(AllocError);
    };
    total_len(words, letters_len(spelled.steps.as_slice()))
}

/// The length of the line of so many bytes of labels and so many letters.
fn total_len(words: u64, letters: u64) -> Result<u64, AllocError>
    ensures { IfOk result (λ n. n ≡ 4 + words + letters) }
{
    let Some(line) = words.checked_add(letters) else {
        return Err(AllocError);
    };
    match line.checked_add(4) {
        Some(count) => Ok(count),
        None => Err(AllocError),
    }
}
