//! What the tokens of a proof name.

ghost use Rattle.std.specs.Prelude.{◌≡◌, ◌<◌, ◌≤◌, [], ◌∷◌, length, map, All, IfOk};
ghost use Rattle.std.specs.Str.{bytes_eq};
ghost use Rattle.mm_scope.specs.Contents.{labels_of, stated_at};
ghost use Rattle.mm_tokens.specs.Pieces.{tokens_in};
ghost use Rattle.mm_proof.specs.Labels.{named_of, step_of, listed_of, numbered, hypothesis};
ghost use Rattle.mm_proof.specs.Readers.{GivesKind, GivesItems, GivesNumbered, IsLabel, IsStep, HasAll};

use crate::fault::ProofFault;
use crate::step::StepKind;
use crate::token::{next_token, text_of};
use mm_scope::{Database, Kind, StmtId};
use mm_tokens::Scanner;
use std::alloc::{AllocError, Global};
use std::collections::HashSet;

/// More statements than this have no numbers in a compressed proof: memory is wanted first.
pub(crate) const MOST_NUMBERS: usize = u32::MAX as usize;

/// What the label names that stands as the token with this number of a theorem's proof.
#[tactic(auto, unfolding(crate::specs::Labels::named_of))]
fn named_of(db: &Database, id: StmtId, number: u64, text: &[u8]) -> Result<StepKind, ProofFault>
    requires { id.0 < length (labels_of db.now) }
    ensures value { GivesKind result (named_of db.now id.0 number text.now) }
    ensures label { IfOk result (IsLabel db.now) }
{
    let Some(found) = db.find(text) else {
        return Err(ProofFault::NoSuchLabel(number));
    };
    match db.kind(found) {
        Kind::Float | Kind::Essential => {
            if db.is_active(found, id) {
                Ok(StepKind::Hyp(found))
            } else {
                Err(ProofFault::HypothesisNotActive(number))
            }
        }
        Kind::Axiom | Kind::Theorem => {
            if found.0 < id.0 {
                Ok(StepKind::Apply(found))
            } else {
                Err(ProofFault::NotEarlier(number))
            }
        }
    }
}

/// The step that a text spells as the token with this number of a normal proof.
#[tactic(auto, unfolding(crate::specs::Labels::step_of))]
pub(crate) fn step_of(
    db: &Database,
    id: StmtId,
    number: u64,
    text: &[u8],
) -> Result<StepKind, ProofFault>
    requires { id.0 < length (labels_of db.now) }
    ensures value { GivesKind result (step_of db.now id.0 number text.now) }
    ensures step { IfOk result (IsStep db.now) }
{
    if text == b"?".as_slice() {
        return Ok(StepKind::Unknown);
    }
    named_of(db, id, number, text)
}

/// The ids of hypotheses as a set.
fn set_of(alloc: Global, ids: &[u32]) -> Result<HashSet<u32>, AllocError>
    ensures { IfOk result (λ s. HasAll s ids.now) }
{
    let mut set = HashSet::new(alloc);
    for id in ids {
        set.insert(*id)?;
    }
    Ok(set)
}

/// The label that a text is as the token with this number of a compressed proof, which lists it.
#[tactic(auto, unfolding(crate::specs::Labels::listed_of))]
fn listed_of(
    db: &Database,
    id: StmtId,
    mandatory: &HashSet<u32>,
    number: u64,
    text: &[u8],
) -> Result<StepKind, ProofFault>
    requires own { id.0 < length (labels_of db.now) }
    requires mandatory { HasAll mandatory.now (stated_at db.now id.0).mandatory }
    ensures value { GivesKind result (listed_of db.now id.0 number text.now) }
    ensures label { IfOk result (IsLabel db.now) }
{
    let kind = named_of(db, id, number, text)?;
    if let StepKind::Hyp(hypothesis) = kind {
        if mandatory.contains(&hypothesis.0) {
            return Err(ProofFault::MandatoryListed(number));
        }
    }
    Ok(kind)
}

/// Hypotheses as steps.
fn hypotheses(alloc: Global, ids: &[u32]) -> Result<Vec<StepKind>, AllocError>
    ensures { IfOk result (λ v. v.items ≡ map hypothesis ids.now) }
{
    let mut kinds = Vec::new(alloc);
    for id in ids {
        kinds.push(StepKind::Hyp(StmtId(*id)))?;
    }
    Ok(kinds)
}

/// What stands for the numbers of a compressed proof that name statements: the mandatory hypotheses, then the labels of the
/// list. The scan is behind the `(`, and goes on behind the `)`.
pub(crate) fn numbered(
    alloc: Global,
    db: &Database,
    id: StmtId,
    proof: &[u8],
    scanner: &mut Scanner<'_>,
) -> Result<Vec<StepKind>, ProofFault>
    requires own { id.0 < length (labels_of db.now) }
    requires proof { scanner.old.bytes ≡ proof.now }
    ensures value { GivesNumbered result (tokens_in scanner.new.left) (numbered db.now id.0 proof.now (tokens_in scanner.old.left)) }
    ensures labels { IfOk result (λ v. All (IsLabel db.now) v.items) }
    ensures small { IfOk result (λ v. length v.items ≤ MOST_NUMBERS) }
    ensures proof { scanner.new.bytes ≡ proof.now }
{
    let frame = db.frame(id);
    let own = frame.mandatory.as_slice();
    let mandatory = set_of(alloc, own)?;
    let mut kinds = hypotheses(alloc, own)?;
    let first = kinds.len();
    while let Some(token) = next_token(scanner) {
        let text = text_of(proof, token);
        if closes(text) {
            return few(kinds);
        }
        let number = (kinds.len() - first) as u64 + 2;
        kinds.push(listed_of(db, id, &mandatory, number, text)?)?;
    }
    Err(ProofFault::ListNotClosed)
}

/// Whether a text is the `)` that ends the list.
fn closes(text: &[u8]) -> bool
    ensures { result ≡ bytes_eq text.now (41 ∷ []) }
{
    text == b")".as_slice()
}

/// Statements that have numbers, unless there are too many.
fn few(kinds: Vec<StepKind>) -> Result<Vec<StepKind>, ProofFault>
    ensures value { GivesItems result kinds.items }
    ensures small { IfOk result (λ v. length v.items ≤ MOST_NUMBERS) }
{
    if kinds.len() > MOST_NUMBERS {
        return Err(ProofFault::Memory);
    }
    Ok(kinds)
}
