//! What holds of chosen proofs.

ghost use Rattle.mm_improve.specs.Grammars.{AnswersAgree};
ghost use Rattle.mm_improve.specs.Assertions.{Terms};
ghost use Rattle.mm_improve.specs.Proofs.{FindsProofs};
ghost use Rattle.mm_improve.specs.Proving.{RanksAreLimited, TreesUnfold};

use mm_scope::mandatory_variables_differ;

/// What is chosen by the items of conclusions is what is chosen by unifiers.
pub fn answers_agree(bytes: &[u8])
    ensures { AnswersAgree bytes.now }
{
    mandatory_variables_differ(bytes);
}

/// No rank is greater than the limit up to which a goal's chosen proof is asked for.
pub fn ranks_are_limited(bytes: &[u8])
    ensures { RanksAreLimited bytes.now }
{
    mandatory_variables_differ(bytes);
}

/// The tree of a chosen proof is a step over the trees of the chosen proofs of its parts.
pub fn trees_unfold()
    ensures { (c : Terms) → TreesUnfold c }
{}

/// What is found for a goal at a depth is a proof of it.
pub fn found_proofs_are_proofs(bytes: &[u8])
    ensures { FindsProofs bytes.now }
{
    let _ = bytes;
}
