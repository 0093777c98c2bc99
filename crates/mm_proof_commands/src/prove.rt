ghost use Rattle.std.specs.Prelude.{◌≡◌, ◌<◌, length};
ghost use Rattle.mm_scope.specs.Contents.{labels_of, stated_at};
ghost use Rattle.mm_stated.specs.declared.statement.Kind.TheVariants.{Theorem};
ghost use Rattle.mm_shell.specs.Answers.{Answers};
ghost use Rattle.mm_proof_commands.specs.Commands.{load_refusal, prove, prove_theorem};

use mm_base::Steps;
use mm_edit::{LoadFault, load};
use mm_scope::{Database, StmtId};
use mm_shell::{
    Change, Done, OpenProof, Refusal, Report, State, Word, find_database, find_theorem, is_closed,
};
use std::alloc::Global;
use std::sync::ledger::Ledger;

/// Opens the proof of a theorem. The nodes of its tree are counted in `steps`.
#[tactic(auto, unfolding(mm_shell::specs::Answers::unless, mm_shell::specs::Answers::given))]
pub fn prove<'a, L: Ledger>(
    alloc: Global,
    state: &'a State,
    label: &'a [u8],
    guarded_too: bool,
    steps: &mut Steps<L>,
) -> Result<Done<'a>, Refusal<'a>>
    ensures { Answers (prove state.now label.now guarded_too) result }
{
    if state.open_proof.is_some() {
        return Err(Refusal::ProofOpen);
    }
    let database = find_database(state)?;
    let id = find_theorem(database, label)?;
    if is_closed(database, guarded_too, id) {
        return Err(Refusal::Guarded(Word::new(label)));
    }
    prove_theorem(alloc, state, database, id, label, steps)
}

// Opens the proof of the theorem that has the label.
fn prove_theorem<'a, L: Ledger>(
    alloc: Global,
    state: &State,
    database: &Database,
    id: StmtId,
    label: &'a [u8],
    steps: &mut Steps<L>,
) -> Result<Done<'a>, Refusal<'a>>
    requires own { id.0 < length (labels_of database.now) }
    requires theorem { (stated_at database.now id.0).kind ≡ Theorem }
    ensures { Answers (prove_theorem state.now database.now id.0 label.now) result }
{
    let tree = match load(alloc, database, id, &state.settings, steps) {
        Ok(tree) => tree,
        Err(fault) => return Err(load_refusal(fault, label)),
    };
    let pending = tree.pending_steps(alloc, database)?.len();
    let report = Report::Counts(tree.size(), tree.unknown_steps(), pending as u32);
    let proof = OpenProof::new(alloc, id, tree, state.undo_depth)?;
    Ok(Done {
        report,
        change: Change::Opens(proof),
    })
}

// Why a proof is not opened.
fn load_refusal<'a>(fault: LoadFault, label: &'a [u8]) -> Refusal<'a>
    ensures { result ≡ load_refusal label.now fault }
{
    match fault {
        LoadFault::NoTree => Refusal::NoTree(Word::new(label)),
        LoadFault::TooManySteps => Refusal::TooManySteps,
        LoadFault::TooDeep => Refusal::TooDeep,
        LoadFault::WorkSpent => Refusal::WorkSpent,
        LoadFault::TooLong => Refusal::TooLong,
        LoadFault::Memory => Refusal::OutOfMemory,
    }
}
