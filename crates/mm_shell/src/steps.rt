//! What SHOW NEW_PROOF says of a proof.

ghost use Rattle.std.specs.Prelude.{◌≡◌, ◌++◌, ◌≤◌, [], IfOk, OnOk, if◌then◌else◌};
ghost use Rattle.std.specs.List.{flat_map};
ghost use Rattle.std.specs.Option.{option_map};
ghost use Rattle.mm_plain.specs.Shape.{size_of, step_at};
ghost use Rattle.mm_shell.specs.Lines.{line_of};
ghost use Rattle.mm_shell.specs.Steps.{is_shown, pending_line, proof_counts, shown_steps, step_head, step_label, step_line, step_lines, steps_text};
ghost use Rattle.mm_shell.specs.Strings.{string_text};

use crate::names::label_text;
use crate::strings::push_string;
use crate::text::Text;
use crate::word::ProofRef;
use itoa::Buffer;
use mm_base::Memory;
use mm_scope::{Database, StmtId};
use mm_subst::WStr;
use std::alloc::Global;

/// The label of what a step names; `?` where it is unknown.
fn step_label(database: &Database, label: Option<StmtId>) -> &[u8]
    ensures { result.now ≡ step_label database.now (option_map (λ id. id.0) label) }
{
    match label {
        Some(id) => label_text(database, id),
        None => b"?",
    }
}

/// Appends the number and the label of a step.
#[tactic(auto, unfolding(crate::specs::Steps::step_head))]
fn push_head(
    database: &Database,
    step: u32,
    label: Option<StmtId>,
    into: &mut Vec<u8>,
) -> Result<(), Memory>
    ensures { OnOk result (into.new.items ≡ into.old.items ++ step_head database.now step (option_map (λ id. id.0) label)) }
{
    let mut buffer = Buffer::new();
    into.extend_from_slice(buffer.format(step).as_bytes())?;
    into.push(b' ')?;
    into.extend_from_slice(step_label(database, label))?;
    into.push(b' ')?;
    Ok(())
}

/// Appends a string, and ends the line.
fn end_line(database: &Database, string: &WStr, into: &mut Vec<u8>) -> Result<(), Memory>
    ensures { OnOk result (into.new.items ≡ into.old.items ++ line_of (string_text database.now string.now)) }
{
    push_string(database, string.symbols(), into)?;
    into.push(b'\n')?;
    Ok(())
}

/// Appends the number, the label and the target of a step.
#[tactic(auto, using(crate::proofs::StepLemmas::line_pushed))]
fn push_step(
    alloc: Global,
    proof: &ProofRef<'_>,
    step: u32,
    into: &mut Vec<u8>,
) -> Result<(), Memory>
    requires { (1 ≤ step) × (step ≤ size_of proof.now.1) }
    ensures { OnOk result (into.new.items ≡ into.old.items ++ step_line proof.now.0 step (step_at proof.now.1 step)) }
{
    let database = proof.database();
    let tree = proof.tree();
    let target = tree.target(alloc, step)?;
    push_head(database, step, tree.label(step), into)?;
    end_line(database, &target, into)?;
    Ok(())
}

/// Appends the source of a step that is pending.
#[tactic(auto, unfolding(crate::specs::Steps::pending_line))]
fn push_source(
    alloc: Global,
    proof: &ProofRef<'_>,
    step: u32,
    into: &mut Vec<u8>,
) -> Result<(), Memory>
    requires { (1 ≤ step) × (step ≤ size_of proof.now.1) }
    ensures { OnOk result (into.new.items ≡ into.old.items ++ pending_line proof.now.0 (step_at proof.now.1 step)) }
{
    let database = proof.database();
    let tree = proof.tree();
    if !tree.is_pending(alloc, database, step)? {
        return Ok(());
    }
    if let Some(source) = tree.source(alloc, database, step)? {
        into.extend_from_slice(b"  is ")?;
        end_line(database, &source, into)?;
    }
    Ok(())
}

/// Appends the lines of a step, where it is shown.
fn push_lines(
    alloc: Global,
    proof: &ProofRef<'_>,
    step: u32,
    shown: bool,
    into: &mut Vec<u8>,
) -> Result<(), Memory>
    requires { (1 ≤ step) × (step ≤ size_of proof.now.1) }
    ensures { OnOk result (into.new.items ≡ into.old.items ++ (if shown then step_lines proof.now.0 proof.now.1 step else [])) }
{
    if shown {
        push_step(alloc, proof, step, into)?;
        push_source(alloc, proof, step, into)?;
    }
    Ok(())
}

/// Whether a step with this label is shown.
fn is_shown(only_unknown: bool, label: Option<u32>) -> bool
    ensures { result ≡ is_shown only_unknown label }
{
    !only_unknown || label.is_none()
}

/// Appends the lines of the steps that are shown.
#[tactic(auto, using(crate::proofs::StepLemmas::labels_count))]
fn push_steps(
    alloc: Global,
    proof: &ProofRef<'_>,
    only_unknown: bool,
    into: &mut Vec<u8>,
) -> Result<(), Memory>
    ensures { OnOk result (into.new.items ≡ into.old.items ++ flat_map (step_lines proof.now.0 proof.now.1) (shown_steps only_unknown proof.now.1)) }
{
    let tree = proof.tree();
    let labels = tree.labels(alloc)?;
    for before in 0..tree.size() {
        let shown = is_shown(only_unknown, labels[before as usize]);
        push_lines(alloc, proof, before + 1, shown, into)?;
    }
    Ok(())
}

/// Appends the counts of all steps.
#[tactic(auto, unfolding(crate::specs::Lines::counts_text))]
fn push_counts(alloc: Global, proof: &ProofRef<'_>, into: &mut Vec<u8>) -> Result<(), Memory>
    ensures { OnOk result (into.new.items ≡ into.old.items ++ proof_counts proof.now.0 proof.now.1) }
{
    let tree = proof.tree();
    let steps = tree.size();
    let unknown = tree.unknown_steps();
    let pending = tree.pending_steps(alloc, proof.database())?.len();
    let line = format!(in alloc; "Steps {steps}, unknown {unknown}, pending {pending}.\n")?;
    into.extend_from_slice(line.as_bytes())?;
    Ok(())
}

/// The answer to SHOW NEW_PROOF: the lines of the steps that are shown, and the counts.
pub fn steps_text(alloc: Global, proof: &ProofRef<'_>, only_unknown: bool) -> Result<Text, Memory>
    ensures { IfOk result (λ text. text ≡ steps_text proof.now.0 proof.now.1 only_unknown) }
{
    let mut text = Vec::new(alloc);
    push_steps(alloc, proof, only_unknown, &mut text)?;
    push_counts(alloc, proof, &mut text)?;
    Ok(Text::new(b"", text))
}
