//! What is known of the chosen proof of a goal.

ghost use Rattle.std.specs.Prelude.{◌≡◌, ◌∷◌, [], IfOk, None};
ghost use Rattle.mm_plain.specs.Valid.{IsString, first_setting};
ghost use Rattle.mm_improve.specs.Choices.{Chooses, bare_assertion, bare_hypothesis, bare_id};
ghost use Rattle.mm_improve.specs.Grammars.{grammar_of};
ghost use Rattle.mm_improve.specs.Laying.{IsReady};
ghost use Rattle.mm_improve.specs.Proving.{chosen_tree};
ghost use Rattle.mm_improve.specs.Searches.{terms};

use crate::database::{is_float_code, rules};
use crate::prover::Prover;
use mm_chart::{Hypothesis, Pattern, Rows, Rules};
use mm_scope::{Database, mandatory_variables_differ};
use mm_subst::{Memory, WSym};
use std::alloc::Global;

/// What is known of the chosen proof of a goal.
#[derive(Drop)]
pub enum Choice {
    /// There is none.
    Nothing,
    /// The goal is a typecode alone, and is proved by the statement with this id.
    Bare(u32),
    /// There is one, and the table of the text has its steps.
    Charted(Rows),
}

/// The first hypothesis that is a typecode alone, by its id.
fn bare_hypothesis(hypotheses: &[Hypothesis], code: WSym) -> Option<u32>
    ensures { result ≡ bare_hypothesis hypotheses.now code }
{
    for hypothesis in hypotheses {
        if code.is_same(hypothesis.code) && hypothesis.symbols.is_empty() {
            return Some(hypothesis.id);
        }
    }
    None
}

/// The first assertion that is a typecode alone, by its id.
fn bare_assertion(assertions: &[Pattern], code: WSym) -> Option<u32>
    ensures { result ≡ bare_assertion assertions.now code }
{
    for assertion in assertions {
        if assertion.code.is_same(code) && assertion.items.is_empty() {
            return Some(assertion.id);
        }
    }
    None
}

/// The statement that proves a typecode alone.
fn bare(rules: &Rules, code: WSym) -> Option<u32>
    ensures { result ≡ bare_id rules.now code }
{
    match bare_hypothesis(rules.hypotheses.as_slice(), code) {
        Some(id) => Some(id),
        None => bare_assertion(rules.assertions.as_slice(), code),
    }
}

/// The same among all that may be used. It takes the time to read the database where that isn't kept.
fn bare_for(
    alloc: Global,
    db: &Database,
    prover: &Prover,
    code: WSym,
) -> Result<Option<u32>, Memory>
    requires { IsReady db.now prover.now }
    ensures { IfOk result (λ o. o ≡ bare_id (grammar_of (terms db.now prover.now.search)) code) }
{
    if is_float_code(db, code) {
        return Ok(bare(&prover.parts, code));
    }
    match &prover.all {
        Some(all) => Ok(bare(all, code)),
        None => {
            let all = rules(alloc, db, prover.search)?;
            Ok(bare(&all, code))
        }
    }
}

/// An empty goal has no chosen proof, since each statement has a typecode.
pub fn empty_has_none(db: &Database, prover: &Prover)
    requires { IsReady db.now prover.now }
    ensures { chosen_tree (terms db.now prover.now.search) [] ≡ None }
{
    let _ = prover;
    mandatory_variables_differ(db.bytes());
}

/// What is known of the chosen proof of a typecode and a text.
pub fn choose(
    alloc: Global,
    db: &Database,
    prover: &Prover,
    code: WSym,
    text: &[WSym],
) -> Result<Choice, Memory>
    requires ready { IsReady db.now prover.now }
    requires string { IsString (first_setting db.now prover.now.search.at.0) (code ∷ text.now) }
    ensures { IfOk result (λ x. Chooses (terms db.now prover.now.search) code text.now x) }
{
    mandatory_variables_differ(db.bytes());
    if text.is_empty() {
        return match bare_for(alloc, db, prover, code)? {
            Some(id) => Ok(Choice::Bare(id)),
            None => Ok(Choice::Nothing),
        };
    }
    let rows = prover.chart(alloc, db, code, text)?;
    if rows.has(0, code, text.len()) {
        Ok(Choice::Charted(rows))
    } else {
        Ok(Choice::Nothing)
    }
}
