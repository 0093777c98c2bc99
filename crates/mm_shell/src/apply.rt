ghost use Rattle.std.specs.Prelude.{◌≡◌, Some};
ghost use Rattle.mm_shell.specs.Changes.{apply_change};
ghost use Rattle.mm_shell.specs.declared.answer.Change.TheVariants.{SetsUndo};

use crate::answer::Change;
use crate::open_proof::OpenProof;
use crate::state::State;
use mm_scope::Database;
use mm_undo::Rings;
use std::mem;

/// Makes a change in the state.
pub fn apply_change(state: &mut State, change: Change)
    ensures { state.new ≡ apply_change change state.old }
{
    match change {
        Change::Stays => {}
        Change::Loads(database) => set_database(&mut state.database, database),
        Change::Opens(proof) => set_proof(&mut state.open_proof, Some(proof)),
        Change::Saves(saving) => {
            set_database(&mut state.database, saving.database);
            if let Some(proof) = &mut state.open_proof {
                proof.note_save();
            }
            state.unwritten = true;
        }
        Change::Undoes => {
            if let Some(proof) = &mut state.open_proof {
                proof.undo();
            }
        }
        Change::Redoes => {
            if let Some(proof) = &mut state.open_proof {
                proof.redo();
            }
        }
        Change::SetsUndo(rings) => set_undo(state, rings),
        Change::SetsTrials(n) => state.settings.trials = n,
        Change::SetsBrackets(on) => state.settings.rule.brackets = on,
        Change::Writes => state.unwritten = false,
        Change::Leaves => set_proof(&mut state.open_proof, None),
        Change::OpensLog => state.log_open = true,
        Change::ClosesLog => state.log_open = false,
        Change::Ends => state.ended = true,
    }
}

// The old proof is dropped here, as the drop of a proof in place costs much to prove.
fn set_proof(slot: &mut Option<OpenProof>, proof: Option<OpenProof>)
    ensures { slot.new ≡ proof }
{
    drop(mem::replace(slot, proof));
}

fn set_database(slot: &mut Option<Database>, database: Database)
    ensures { slot.new ≡ Some database }
{
    drop(mem::replace(slot, Some(database)));
}

// Histories keep as many versions as these rings hold, now and later.
fn set_undo(state: &mut State, rings: Rings)
    ensures { state.new ≡ apply_change (SetsUndo rings) state.old }
{
    state.undo_depth = rings.depth();
    match &mut state.open_proof {
        Some(proof) => proof.move_history(rings),
        None => drop(rings),
    }
}
