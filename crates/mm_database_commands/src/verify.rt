ghost use Rattle.std.specs.Prelude.{◌≡◌, ◌<◌, ◌∷◌, ◌++◌, [], All, IfOk, OnOk, cond, length};
ghost use Rattle.mm_scope.specs.Contents.{labels_of};
ghost use Rattle.mm_shell.specs.Answers.{Answers, Gives, seen};
ghost use Rattle.mm_database_commands.specs.Commands.{IsTheorem, checked, is_meant, is_pattern, theorems_matched, theorems_meant, verify};

use mm_scope::{Database, Kind, StmtId};
use mm_shell::{
    Change, Check, Checks, DatabaseRef, Done, Refusal, Report, State, find_database, find_theorem,
    label_of,
};
use mm_trace::matches;
use std::alloc::{AllocError as Memory, Global};

/// Verifies the proofs of the theorems that a word means.
#[tactic(auto, using(crate::proofs::VerifyLemmas::meant_theorems), unfolding(mm_shell::specs::Answers::unless, mm_shell::specs::Answers::given))]
pub fn verify<'a>(alloc: Global, state: &'a State, word: &'a [u8]) -> Result<Done<'a>, Refusal<'a>>
    ensures { Answers (verify state.now word.now) result }
{
    let database = find_database(state)?;
    let theorems = theorems_meant(alloc, database, word)?;
    let checks = check_all(alloc, database, theorems.as_slice())?;
    Ok(Done {
        report: Report::Verified(DatabaseRef::new(database), checks),
        change: Change::Stays,
    })
}

// The theorems that a word means: those that a pattern matches, or the one with a label.
#[tactic(auto, unfolding(mm_shell::specs::Answers::given))]
fn theorems_meant<'a>(
    alloc: Global,
    database: &Database,
    word: &'a [u8],
) -> Result<Vec<u32>, Refusal<'a>>
    ensures { Gives (theorems_meant database.now word.now) (seen (λ v. v.items) result) }
{
    if is_pattern(word) {
        return Ok(theorems_matched(alloc, database, word)?);
    }
    let theorem = find_theorem(database, word)?;
    let mut theorems = Vec::new(alloc);
    theorems.push(theorem.0)?;
    Ok(theorems)
}

// Whether a word may stand for several labels.
fn is_pattern(word: &[u8]) -> bool
    ensures { result ≡ is_pattern word.now }
{
    word.iter().any(|b| *b == b'*' || *b == b'?' || *b == b',')
}

// The theorems whose labels a pattern matches, in order.
#[tactic(auto, using(crate::proofs::VerifyLemmas::one_more))]
fn theorems_matched(alloc: Global, database: &Database, pattern: &[u8]) -> Result<Vec<u32>, Memory>
    ensures { IfOk result (λ v. v.items ≡ theorems_matched database.now pattern.now) }
{
    let mut theorems = Vec::new(alloc);
    for id in 0..database.count() {
        let meant = is_meant(database, StmtId(id), pattern);
        push_where(&mut theorems, meant, id)?;
    }
    Ok(theorems)
}

// Appends a number where that is wanted.
fn push_where(numbers: &mut Vec<u32>, wanted: bool, number: u32) -> Result<(), Memory>
    ensures { OnOk result (numbers.new.items ≡ numbers.old.items ++ cond wanted (number ∷ []) []) }
{
    if wanted {
        numbers.push(number)?;
    }
    Ok(())
}

// Whether a statement is a theorem whose label a pattern matches.
fn is_meant(database: &Database, id: StmtId, pattern: &[u8]) -> bool
    requires { id.0 < length (labels_of database.now) }
    ensures { result ≡ is_meant database.now pattern.now id.0 }
{
    match database.kind(id) {
        Kind::Theorem => matches(pattern, label_of(database, id)),
        _ => false,
    }
}

// What becomes of the proofs of theorems.
fn check_all(alloc: Global, database: &Database, theorems: &[u32]) -> Result<Checks, Memory>
    requires { All (IsTheorem database.now) theorems.now }
    ensures { IfOk result (λ checks. checks ≡ checked database.now theorems.now) }
{
    let mut checks = Checks::new(alloc);
    for id in theorems {
        let theorem = StmtId(*id);
        let verdict = mm_stack::verify(alloc, database, theorem)?;
        checks.push(Check { theorem, verdict })?;
    }
    Ok(checks)
}
