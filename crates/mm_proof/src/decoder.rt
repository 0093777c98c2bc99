//! The steps of a proof.

ghost use Rattle.std.specs.Prelude.{◌≡◌, ◌≤◌, ◌<◌, ◌+◌, ◌^◌, length, drop, IfOk, true};
ghost use Rattle.std.specs.List.{AllByRecursion};
ghost use Rattle.mm_scope.specs.Contents.{labels_of, stated_at};
ghost use Rattle.mm_stated.specs.declared.statement.Kind.TheVariants.{Theorem};
ghost use Rattle.mm_tokens.specs.Pieces.{pieces_of, tokens_in};
ghost use Rattle.mm_proof.specs.Steps.{IsOwn, AreSound};
ghost use Rattle.mm_proof.specs.Decoding.{steps_from, begins_list, normal, compressed, spelled, decoded, Decodes};
ghost use Rattle.mm_proof.specs.Readers.{GivesSteps};

use crate::fault::ProofFault;
use crate::label::{numbered, step_of};
use crate::letters::Letters;
use crate::reader::read;
use crate::step::{ProofStep, ProofSteps};
use crate::token::{begins_list, next_token, text_of};
use mm_scope::{Database, StmtId};
use mm_tokens::Scanner;
use std::alloc::Global;

/// The steps that the tokens of a normal proof spell; none where there is no token.
fn steps_in(
    alloc: Global,
    db: &Database,
    id: StmtId,
    proof: &[u8],
) -> Result<Vec<ProofStep>, ProofFault>
    requires { id.0 < length (labels_of db.now) }
    ensures value { GivesSteps result (steps_from db.now id.0 proof.now 1 (tokens_in (pieces_of proof.now))) }
    ensures sound { IfOk result (λ v. AreSound db.now v.items) }
{
    let mut steps = Vec::new(alloc);
    let mut scanner = Scanner::new(proof);
    while let Some(token) = next_token(&mut scanner) {
        let number = steps.len() as u64 + 1;
        let kind = step_of(db, id, number, text_of(proof, token))?;
        steps.push(ProofStep {
            kind,
            tagged: false,
        })?;
    }
    Ok(steps)
}

/// The steps of a normal proof, which has a token.
fn normal(
    alloc: Global,
    db: &Database,
    id: StmtId,
    proof: &[u8],
) -> Result<Vec<ProofStep>, ProofFault>
    requires { id.0 < length (labels_of db.now) }
    ensures value { GivesSteps result (normal db.now id.0 proof.now (tokens_in (pieces_of proof.now))) }
    ensures sound { IfOk result (λ v. AreSound db.now v.items) }
{
    let steps = steps_in(alloc, db, id, proof)?;
    if steps.is_empty() {
        return Err(ProofFault::EmptyProof);
    }
    Ok(steps)
}

/// The steps of a compressed proof, which begins at a place of the database.
fn compressed(
    alloc: Global,
    db: &Database,
    id: StmtId,
    from: u64,
    proof: &[u8],
) -> Result<Vec<ProofStep>, ProofFault>
    requires own { id.0 < length (labels_of db.now) }
    requires begins { begins_list proof.now (tokens_in (pieces_of proof.now)) ≡ true }
    requires fits { from + length proof.now < 2 ^ 64 }
    ensures value { GivesSteps result (compressed db.now id.0 from proof.now (drop 1 (tokens_in (pieces_of proof.now)))) }
    ensures sound { IfOk result (λ v. AreSound db.now v.items) }
{
    let mut scanner = Scanner::new(proof);
    let _ = next_token(&mut scanner);
    let kinds = numbered(alloc, db, id, proof, &mut scanner)?;
    let letters = Letters::new(from, proof, scanner);
    read(alloc, kinds.as_slice(), letters)
}

/// The steps of a proof, which begins at a place of the database.
#[tactic(auto, unfolding(crate::specs::Decoding::spelled))]
fn spelled(
    alloc: Global,
    db: &Database,
    id: StmtId,
    from: u64,
    proof: &[u8],
) -> Result<Vec<ProofStep>, ProofFault>
    requires own { id.0 < length (labels_of db.now) }
    requires fits { from + length proof.now < 2 ^ 64 }
    ensures value { GivesSteps result (spelled db.now id.0 from proof.now) }
    ensures sound { IfOk result (λ v. AreSound db.now v.items) }
{
    if begins_list(proof) {
        return compressed(alloc, db, id, from, proof);
    }
    normal(alloc, db, id, proof)
}

/// The steps of a theorem's proof, in either form, or its first fault from left to right (Metamath book, section 4.1.4 and
/// Appendix B).
///
/// # Errors
/// The first fault: tokens of the proof are counted from 1, the `(` too, and places are those of the database's bytes, from 0.
/// A list that is not closed, an empty proof and a number that is open show at the end, in this order.
#[tactic(auto, unfolding(crate::specs::Decoding::decoded))]
pub fn decode(alloc: Global, db: &Database, id: StmtId) -> Result<ProofSteps, ProofFault>
    requires own { id.0 < length (labels_of db.now) }
    requires theorem { (stated_at db.now id.0).kind ≡ Theorem }
    ensures value { Decodes result (decoded db.now id.0) }
    ensures own { IfOk result (λ steps. AllByRecursion (λ s. IsOwn db.now s.kind) steps) }
{
    let Some(span) = db.proof_span(id) else {
        return Err(ProofFault::EmptyProof);
    };
    let proof = &db.bytes()[span.start as usize..span.end as usize];
    let items = spelled(alloc, db, id, span.start, proof)?;
    Ok(ProofSteps { items })
}
