//! What commands look for. Each function answers its definition, so that commands prove by `?`.

ghost use Rattle.std.specs.Prelude.{◌≡◌, ◌<◌, IfOk, length};
ghost use Rattle.mm_scope.specs.Contents.{labels_of, stated_at};
ghost use Rattle.mm_plain.specs.Labels.{label_at};
ghost use Rattle.mm_stated.specs.declared.statement.Kind.TheVariants.{Theorem};
ghost use Rattle.mm_shell.specs.Answers.{seen};
ghost use Rattle.mm_shell.specs.Finding.{database_of, is_closed, is_forbidden, proof_of, statement_named, theorem_named};

use crate::open_proof::OpenProof;
use crate::refusal::Refusal;
use crate::state::State;
use crate::word::Word;
use mm_scope::{Database, Kind, StmtId};

/// The database, if there is one.
pub fn find_database<'a>(state: &'a State) -> Result<&'a Database, Refusal<'a>>
    ensures { seen (λ d. d.now) result ≡ database_of state.now }
{
    match &state.database {
        Some(database) => Ok(database),
        None => Err(Refusal::NoDatabase),
    }
}

/// The statement with a label.
pub fn find_statement<'a>(database: &Database, label: &'a [u8]) -> Result<StmtId, Refusal<'a>>
    ensures is { seen (λ id. id.0) result ≡ statement_named database.now label.now }
    ensures own { IfOk result (λ id. id.0 < length (labels_of database.now)) }
{
    match database.find(label) {
        Some(id) => Ok(id),
        None => Err(Refusal::NoStatement(Word::new(label))),
    }
}

/// The theorem with a label.
#[tactic(auto, unfolding(crate::specs::Answers::unless, crate::specs::Answers::given))]
pub fn find_theorem<'a>(database: &Database, label: &'a [u8]) -> Result<StmtId, Refusal<'a>>
    ensures is { seen (λ id. id.0) result ≡ theorem_named database.now label.now }
    ensures own { IfOk result (λ id. id.0 < length (labels_of database.now)) }
    ensures theorem { IfOk result (λ id. (stated_at database.now id.0).kind ≡ Theorem) }
{
    let Some(id) = database.find(label) else {
        return Err(Refusal::NoStatement(Word::new(label)));
    };
    match database.kind(id) {
        Kind::Theorem => Ok(id),
        _ => Err(Refusal::NotTheorem(Word::new(label))),
    }
}

/// The database and the open proof, if there is one.
#[tactic(auto, unfolding(crate::specs::Answers::unless, crate::specs::Answers::given))]
pub fn find_proof<'a>(state: &'a State) -> Result<(&'a Database, &'a OpenProof), Refusal<'a>>
    ensures { seen (λ here. (here.0.now, here.1.now)) result ≡ proof_of state.now }
{
    let Some(database) = &state.database else {
        return Err(Refusal::NoProofOpen);
    };
    let Some(proof) = &state.open_proof else {
        return Err(Refusal::NoProofOpen);
    };
    Ok((database, proof))
}

/// Whether a theorem is guarded against change, and that isn't overridden.
pub fn is_closed(database: &Database, guarded_too: bool, id: StmtId) -> bool
    requires { id.0 < length (labels_of database.now) }
    ensures { result ≡ is_closed guarded_too database.now id.0 }
{
    !guarded_too && database.change_guarded(id)
}

/// Whether a statement is guarded against use, and that isn't overridden.
pub fn is_forbidden(database: &Database, guarded_too: bool, id: StmtId) -> bool
    requires { id.0 < length (labels_of database.now) }
    ensures { result ≡ is_forbidden guarded_too database.now id.0 }
{
    !guarded_too && database.usage_guarded(id)
}

/// The label of a statement.
#[tactic(auto, using(crate::proofs::FindLemmas::label_found))]
pub fn label_of(database: &Database, id: StmtId) -> &[u8]
    requires { id.0 < length (labels_of database.now) }
    ensures { result.now ≡ label_at database.now id.0 }
{
    database.label(id)
}
