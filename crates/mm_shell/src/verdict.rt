//! What VERIFY PROOF says of theorems.

ghost use Rattle.std.specs.Prelude.{◌≡◌, ◌++◌, IfOk, OnOk, count_by};
ghost use Rattle.mm_shell.specs.Verdicts.{checked_text, at_step, with_pair, fault_text, check_line, checks_text, is_accepted, is_faulty, is_incomplete, last_line};

use crate::checks::Check;
use crate::names::{label_text, symbol_text};
use crate::text::Text;
use mm_base::Memory;
use mm_scope::{Database, Sym};
use mm_stack::{StackFault, Verdict};
use std::alloc::Global;

/// The last line: how many proofs were checked, accepted, incomplete and faulty.
#[tactic(auto, unfolding(crate::specs::Verdicts::checked_text))]
fn checked(
    alloc: Global,
    all: u64,
    accepted: u64,
    incomplete: u64,
    faulty: u64,
) -> Result<Vec<u8>, Memory>
    ensures { IfOk result (λ text. text.items ≡ checked_text all accepted incomplete faulty) }
{
    let line = format!(in alloc;
        "Checked {all}: accepted {accepted}, incomplete {incomplete}, faulty {faulty}.\n"
    )?;
    Ok(line.into_bytes())
}

/// A fault by its number, and the step that has it.
fn at_step(alloc: Global, number: u8, step: u64) -> Result<Vec<u8>, Memory>
    ensures { IfOk result (λ text. text.items ≡ at_step number step) }
{
    Ok(format!(in alloc; "fault {number} at step {step}")?.into_bytes())
}

/// A fault by its number, with the step that has it and two symbols.
fn with_pair(
    alloc: Global,
    database: &Database,
    number: u8,
    step: u64,
    left: Sym,
    right: Sym,
) -> Result<Vec<u8>, Memory>
    ensures { IfOk result (λ text. text.items ≡ with_pair database.now number step left.0 right.0) }
{
    let mut text = at_step(alloc, number, step)?;
    text.extend_from_slice(b", ")?;
    text.extend_from_slice(symbol_text(database, left))?;
    text.extend_from_slice(b" and ")?;
    text.extend_from_slice(symbol_text(database, right))?;
    Ok(text)
}

/// A fault in a proof's text or in its run.
#[tactic(auto, unfolding(crate::specs::Verdicts::fault_text))]
fn fault_text(alloc: Global, database: &Database, fault: StackFault) -> Result<Vec<u8>, Memory>
    ensures { IfOk result (λ text. text.items ≡ fault_text database.now fault) }
{
    match fault {
        StackFault::Proof(fault) => {
            let number = fault.number();
            let place = fault.place();
            Ok(format!(in alloc; "proof fault {number} at {place}")?.into_bytes())
        }
        StackFault::Underflow(step) => at_step(alloc, 2, step),
        StackFault::FloatMismatch(step) => at_step(alloc, 3, step),
        StackFault::EssentialMismatch(step) => at_step(alloc, 4, step),
        StackFault::SameVariable(step, symbol) => with_pair(
            alloc, database, 5, step, symbol, symbol,
        ),
        StackFault::MissingDistinct(step, left, right) => with_pair(
            alloc, database, 6, step, left, right,
        ),
        StackFault::LeftOver(entries) => Ok(format!(in alloc;
            "fault 7, {entries} entries"
        )?.into_bytes()),
        StackFault::WrongResult => Ok(b"fault 8".to_vec(alloc)?),
        StackFault::TooLong(step) => at_step(alloc, 9, step),
    }
}

/// Appends the line of a theorem whose proof is not accepted; nothing where it is.
#[tactic(auto, unfolding(crate::specs::Verdicts::check_line))]
fn push_line(
    alloc: Global,
    database: &Database,
    check: Check,
    into: &mut Vec<u8>,
) -> Result<(), Memory>
    ensures { OnOk result (into.new.items ≡ into.old.items ++ check_line database.now check) }
{
    match check.verdict {
        Verdict::Accepted => {}
        Verdict::Incomplete => {
            into.extend_from_slice(label_text(database, check.theorem))?;
            into.extend_from_slice(b": incomplete\n")?;
        }
        Verdict::Faulty(fault) => {
            let line = fault_text(alloc, database, fault)?;
            into.extend_from_slice(label_text(database, check.theorem))?;
            into.extend_from_slice(b": ")?;
            into.extend_from_slice(line.as_slice())?;
            into.push(b'\n')?;
        }
    }
    Ok(())
}

fn is_accepted(verdict: Verdict) -> bool
    ensures { result ≡ is_accepted verdict }
{
    matches!(&verdict, Verdict::Accepted)
}

fn is_incomplete(verdict: Verdict) -> bool
    ensures { result ≡ is_incomplete verdict }
{
    matches!(&verdict, Verdict::Incomplete)
}

fn is_faulty(verdict: Verdict) -> bool
    ensures { result ≡ is_faulty verdict }
{
    matches!(&verdict, Verdict::Faulty(_))
}

/// How many proofs were accepted.
fn count_accepted(checks: &[Check]) -> usize
    ensures { result ≡ count_by (λ c. is_accepted c.verdict) checks.now }
{
    checks.iter().filter(|c| is_accepted(c.verdict)).count()
}

/// How many are incomplete.
fn count_incomplete(checks: &[Check]) -> usize
    ensures { result ≡ count_by (λ c. is_incomplete c.verdict) checks.now }
{
    checks.iter().filter(|c| is_incomplete(c.verdict)).count()
}

/// How many are faulty.
fn count_faulty(checks: &[Check]) -> usize
    ensures { result ≡ count_by (λ c. is_faulty c.verdict) checks.now }
{
    checks.iter().filter(|c| is_faulty(c.verdict)).count()
}

/// The answer to VERIFY PROOF, where these proofs were checked.
pub fn checks_text(alloc: Global, database: &Database, checks: &[Check]) -> Result<Text, Memory>
    ensures { IfOk result (λ text. text ≡ checks_text database.now checks.now) }
{
    let mut text = Vec::new(alloc);
    for check in checks {
        push_line(alloc, database, *check, &mut text)?;
    }
    let last = last_line(alloc, checks)?;
    text.extend_from_slice(last.as_slice())?;
    Ok(Text::new(b"", text))
}

/// The last line, by how many proofs were accepted, are incomplete and are faulty.
fn last_line(alloc: Global, checks: &[Check]) -> Result<Vec<u8>, Memory>
    ensures { IfOk result (λ text. text.items ≡ last_line checks.now) }
{
    checked(
        alloc,
        checks.len() as u64,
        count_accepted(checks) as u64,
        count_incomplete(checks) as u64,
        count_faulty(checks) as u64,
    )
}
