//! The text of a proof.

ghost use Rattle.std.specs.Prelude.{◌≡◌, ◌<◌, All, IfOk, length, map};
ghost use Rattle.mm_layout.specs.Normal.{normal_text};
ghost use Rattle.mm_scope.specs.Contents.{labels_of};
ghost use Rattle.mm_subst.specs.Statements.{statement_of};
ghost use Rattle.mm_plain.specs.Numbers.{IsOwnLabel};
ghost use Rattle.mm_plain.specs.Valid.{IsValid};
ghost use Rattle.mm_proof.specs.Encodes.{OfTree};
ghost use Rattle.mm_proof.specs.Encoding.{compressed_proof};
ghost use Rattle.mm_sound.specs.Complete.{step_for};
ghost use Rattle.mm_sound.specs.Written.{word_for};
ghost use Rattle.mm_save.specs.Saving.{saved_text};

use crate::form::Form;
use crate::steps::steps_for;
use mm_layout::Layout;
use mm_proof::encode_compressed;
use mm_scope::{Database, StmtId};
use mm_tree::Tree;
use std::alloc::{AllocError, Global};

/// What is written for a step: the label of the statement that it names, or `?`.
fn word(db: &Database, label: Option<u32>) -> &[u8]
    requires { IsOwnLabel db.now label }
    ensures { result.now ≡ word_for db.now label }
{
    match label {
        Some(id) => db.label(StmtId(id)),
        None => b"?",
    }
}

/// The text of a normal proof whose steps name these statements, in order.
fn normal_text(alloc: Global, db: &Database, labels: &[Option<u32>]) -> Result<Vec<u8>, AllocError>
    requires { All (IsOwnLabel db.now) labels.now }
    ensures { IfOk result (λ v. v.items ≡ normal_text (map (word_for db.now) labels.now)) }
{
    let mut layout = Layout::new(alloc);
    for label in labels {
        layout.token(word(db, *label))?;
    }
    layout.finish()
}

/// The text of a compressed proof of a theorem, whose steps name these statements and fold to one label tree.
fn compressed_text(
    alloc: Global,
    db: &Database,
    at: StmtId,
    labels: &[Option<u32>],
) -> Result<Vec<u8>, AllocError>
    requires own { at.0 < length (labels_of db.now) }
    requires labels { All (IsOwnLabel db.now) labels.now }
    ensures { IfOk result (λ v. OfTree db.now (map (step_for db.now) labels.now) (λ t. v.items ≡ compressed_proof db.now at.0 t)) }
{
    let steps = steps_for(alloc, db, labels)?;
    encode_compressed(alloc, db, at, &steps)
}

/// The text of the proof in hand of a theorem, in a form.
pub fn proof_text(
    alloc: Global,
    db: &Database,
    at: StmtId,
    form: Form,
    tree: &Tree,
) -> Result<Vec<u8>, AllocError>
    requires own { at.0 < length (labels_of db.now) }
    requires valid { IsValid db.now at.0 (statement_of db.now at.0) tree.now.proof }
    ensures { IfOk result (λ v. v.items ≡ saved_text db.now at.0 form tree.now.proof.plain) }
{
    let labels = tree.labels(alloc)?;
    match form {
        Form::Normal => normal_text(alloc, db, labels.as_slice()),
        Form::Compressed => compressed_text(alloc, db, at, labels.as_slice()),
    }
}
