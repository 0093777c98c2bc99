ghost use Rattle.std.specs.Prelude.{◌≡◌};
ghost use Rattle.std.specs.List.{list_any};
ghost use Rattle.std.specs.Option.{is_none};
ghost use Rattle.mm_shell.specs.Answers.{Answers, Gives};
ghost use Rattle.mm_shell.specs.Sound.{IsOpenIn, IsSound};
ghost use Rattle.mm_proof_commands.specs.Commands.{database_with, form_of, not_distinct, save, save_proof, unknown_or_ready};

use mm_save::{Clash, Form, SaveFault, first_clash, save_tree};
use mm_scope::Database;
use mm_shell::{
    Change, Done, OpenProof, Refusal, Report, Saving, State, Word, find_proof, is_closed, label_of,
    symbol_text,
};
use std::alloc::Global;

/// Puts the open proof into the database, in the compressed form or in the normal one.
#[tactic(auto, unfolding(mm_shell::specs::Answers::unless, mm_shell::specs::Answers::given))]
pub fn save<'a>(
    alloc: Global,
    state: &'a State,
    compressed: bool,
    guarded_too: bool,
) -> Result<Done<'a>, Refusal<'a>>
    requires { IsSound state.now }
    ensures { Answers (save state.now compressed guarded_too) result }
{
    let (database, proof) = find_proof(state)?;
    save_proof(alloc, database, proof, form_of(compressed), guarded_too)
}

// The form that is asked for.
fn form_of(compressed: bool) -> Form
    ensures { result ≡ form_of compressed }
{
    if compressed {
        Form::Compressed
    } else {
        Form::Normal
    }
}

// Puts a proof into the database.
#[tactic(auto, unfolding(mm_shell::specs::Answers::unless, mm_shell::specs::Answers::given))]
fn save_proof<'a>(
    alloc: Global,
    database: &'a Database,
    proof: &OpenProof,
    form: Form,
    guarded_too: bool,
) -> Result<Done<'a>, Refusal<'a>>
    requires { IsOpenIn database.now proof.now }
    ensures { Answers (save_proof database.now proof.now form guarded_too) result }
{
    let theorem = proof.theorem();
    let label = label_of(database, theorem);
    if is_closed(database, guarded_too, theorem) {
        return Err(Refusal::Guarded(Word::new(label)));
    }
    let some_unknown = unknown_or_ready(alloc, database, proof)?;
    let saved = database_with(alloc, database, proof, form)?;
    Ok(Done {
        report: Report::Saved(Word::new(label), some_unknown, proof.steps()),
        change: Change::Saves(Saving {
            database: saved,
            theorem,
            complete: !some_unknown,
        }),
    })
}

// Whether some step is unknown. Where none is, none may be pending, and no two variables may clash.
#[tactic(auto, using(mm_shell::proofs::FindLemmas::own_labels), unfolding(mm_shell::specs::Answers::unless, mm_shell::specs::Answers::given))]
fn unknown_or_ready<'a>(
    alloc: Global,
    database: &'a Database,
    proof: &OpenProof,
) -> Result<bool, Refusal<'a>>
    requires { IsOpenIn database.now proof.now }
    ensures { Gives (unknown_or_ready database.now proof.now) result }
{
    let labels = proof.labels(alloc)?;
    if has_unknown(labels.as_slice()) {
        return Ok(true);
    }
    if let Some(step) = proof.first_pending(alloc, database)? {
        return Err(Refusal::NotUnified(step));
    }
    if let Some(clash) = first_clash(alloc, database, proof.theorem(), proof.tree())? {
        return Err(not_distinct(database, clash));
    }
    Ok(false)
}

// Two variables that a step must keep apart.
fn not_distinct<'a>(database: &'a Database, clash: Clash) -> Refusal<'a>
    ensures { result ≡ not_distinct database.now clash }
{
    let first = symbol_text(database, clash.first);
    let second = symbol_text(database, clash.second);
    Refusal::NotDistinct(clash.step, Word::new(first), Word::new(second))
}

// Whether one of the steps with these labels is unknown.
fn has_unknown(labels: &[Option<u32>]) -> bool
    ensures { result ≡ list_any (λ o. is_none o) labels.now }
{
    labels.iter().any(|label| label.is_none())
}

// The database with a proof in a form.
#[tactic(auto, using(crate::proofs::SaveLemmas::not_over, crate::proofs::SaveLemmas::over), unfolding(mm_shell::specs::Answers::unless, mm_shell::specs::Answers::given))]
fn database_with<'a>(
    alloc: Global,
    database: &Database,
    proof: &OpenProof,
    form: Form,
) -> Result<Database, Refusal<'a>>
    requires { IsOpenIn database.now proof.now }
    ensures { Gives (database_with database.now proof.now form) result }
{
    match save_tree(alloc, database, proof.theorem(), form, proof.tree()) {
        Ok(saved) => Ok(saved),
        Err(SaveFault::TooLong) => Err(Refusal::TooLong),
        Err(SaveFault::Memory) => Err(Refusal::OutOfMemory),
    }
}
