//! Chosen proofs, laid out by the table.

ghost use Rattle.std.specs.Prelude.{◌≡◌, ◌<◌, ◌≤◌, ◌∷◌, [], IfOk, length};
ghost use Rattle.mm_scope.specs.Contents.{labels_of};
ghost use Rattle.mm_scope.specs.Laws.{AllDiffer};
ghost use Rattle.mm_plain.specs.Shape.{known};
ghost use Rattle.mm_plain.specs.Valid.{IsString, first_setting};
ghost use Rattle.mm_tree.specs.Plans.{IsPlan, grove_of};
ghost use Rattle.mm_chart.specs.Charts.{AreAnswersFor, ArePlaced, AreWithin};
ghost use Rattle.mm_improve.specs.Choices.{IsCharted};
ghost use Rattle.mm_improve.specs.Grammars.{grammar_of};
ghost use Rattle.mm_improve.specs.Laying.{IsCounted, IsReady, LaysFound, LaysTree};
ghost use Rattle.mm_chart.specs.Options.{is_there};
ghost use Rattle.mm_improve.specs.Proving.{chosen_tree, rank_limit};
ghost use Rattle.mm_improve.specs.Searches.{terms};
ghost use Rattle.mm_improve.specs.Steps.{IsStep, Pushes, values_by};
ghost use Rattle.mm_improve.specs.Traces.{IsRanked, string_of, tree_at};

use crate::choice::{Choice, choose, empty_has_none};
use crate::database::Search;
use crate::fault::ImproveFault;
use crate::prover::Prover;
use crate::tracing::{push_kids, steps_back};
use mm_chart::{Part, Rows, value_of};
use mm_scope::{Database, StmtId, mandatory_variables_differ};
use mm_subst::{Memory, Subst, WStr, WSym};
use mm_tree::{MOST_STEPS, Plan};
use std::alloc::Global;

/// The step that proves a part: what it names, the variables of that, and a part for each of them.
#[derive(Drop)]
struct PartStep {
    id: u32,
    keys: Vec<u32>,
    kids: Vec<Part>,
}

/// The step of a part that has a rank.
fn step_of(
    alloc: Global,
    db: &Database,
    search: Search,
    goal: WSym,
    text: &[WSym],
    rows: &Rows,
    part: Part,
) -> Result<PartStep, Memory>
    requires own { search.at.0 < length (labels_of db.now) }
    requires answers { AreAnswersFor (grammar_of (terms db.now search)) goal text.now rows.now }
    requires placed { ArePlaced text.now rows.now }
    requires ranked { IsRanked (terms db.now search) (rank_limit db.now (goal ∷ text.now)) goal text.now part }
    ensures { IfOk result (λ s. IsStep (terms db.now search) (rank_limit db.now (goal ∷ text.now)) goal text.now part s.id s.keys.items s.kids.items) }
{
    mandatory_variables_differ(db.bytes());
    let _ = search;
    let _ = goal;
    let _ = text;
    match rows.find(part.from, part.code, part.to) {
        Some(entry) => {
            let mut kids = Vec::new(alloc);
            let keys = push_kids(alloc, db, entry, &mut kids)?;
            Ok(PartStep {
                id: entry.id,
                keys,
                kids,
            })
        }
        None => unreachable!(),
    }
}

/// The substitution that puts the string of a part for each variable.
fn values_by(alloc: Global, text: &[WSym], keys: &[u32], kids: &[Part]) -> Result<Subst, Memory>
    requires differ { AllDiffer keys.now }
    requires many { length kids.now ≡ length keys.now }
    requires within { AreWithin text.now kids.now }
    ensures { IfOk result (λ s. s ≡ values_by text.now keys.now kids.now) }
{
    let mut sigma = Subst::new(alloc);
    for (i, key) in keys.iter().enumerate() {
        let value = WStr::new(alloc, value_of(kids, text, i))?;
        sigma.put(alloc, WSym::Var(*key), value)?;
    }
    Ok(sigma)
}

/// The string of a part, behind its typecode.
fn string_of(alloc: Global, text: &[WSym], part: Part) -> Result<WStr, Memory>
    requires ordered { part.from ≤ part.to }
    requires within { part.to ≤ length text.now }
    ensures { IfOk result (λ s. s ≡ string_of text.now part) }
{
    let mut symbols = Vec::new(alloc);
    symbols.push(part.code)?;
    symbols.extend_from_slice(&text[part.from..part.to])?;
    Ok(WStr::from_vec(symbols))
}

/// Puts a known step over the last trees that stand.
///
/// # Errors
/// `TooManySteps` exactly where they have 1,000,000 steps already.
fn push_step(
    alloc: Global,
    plan: &mut Plan,
    target: WStr,
    id: u32,
    sigma: Subst,
    takes: usize,
) -> Result<(), ImproveFault>
    requires plan { IsPlan plan.old }
    requires takes { takes ≤ length (grove_of plan.old).standing }
    ensures { Pushes plan.old target id sigma takes result plan.new }
{
    if plan.steps() >= MOST_STEPS {
        return Err(ImproveFault::TooManySteps);
    }
    plan.push(alloc, target, StmtId(id), sigma, takes)?;
    Ok(())
}

/// Lays the tree of a part behind the trees of a plan.
///
/// # Errors
/// `TooManySteps` only where the trees have more than 1,000,000 steps with it, and `TooDeep` only where it has more levels
/// than are left.
fn lay_part(
    alloc: Global,
    db: &Database,
    search: Search,
    goal: WSym,
    text: &[WSym],
    rows: &Rows,
    part: Part,
    left: u32,
    plan: &mut Plan,
) -> Result<(), ImproveFault>
    requires own { search.at.0 < length (labels_of db.now) }
    requires answers { AreAnswersFor (grammar_of (terms db.now search)) goal text.now rows.now }
    requires placed { ArePlaced text.now rows.now }
    requires ranked { IsRanked (terms db.now search) (rank_limit db.now (goal ∷ text.now)) goal text.now part }
    requires plan { IsPlan plan.old }
    ensures { LaysTree plan.old (tree_at (terms db.now search) (rank_limit db.now (goal ∷ text.now)) text.now part) left result plan.new }
{
    if left == 0 {
        return Err(ImproveFault::TooDeep);
    }
    let step = step_of(alloc, db, search, goal, text, rows, part)?;
    for kid in &step.kids {
        lay_part(alloc, db, search, goal, text, rows, *kid, left - 1, plan)?;
    }
    let target = string_of(alloc, text, part)?;
    let sigma = values_by(alloc, text, step.keys.as_slice(), step.kids.as_slice())?;
    push_step(alloc, plan, target, step.id, sigma, step.kids.len())
}

/// Lays a step that stands over no tree.
///
/// # Errors
/// `TooManySteps` only where the trees have more than 1,000,000 steps with it, and `TooDeep` only where no level is left.
fn lay_bare(
    alloc: Global,
    goal: &WStr,
    id: u32,
    left: u32,
    plan: &mut Plan,
) -> Result<(), ImproveFault>
    requires plan { IsPlan plan.old }
    ensures { LaysTree plan.old (known goal.now id [] []) left result plan.new }
{
    if left == 0 {
        return Err(ImproveFault::TooDeep);
    }
    let target = goal.copy(alloc)?;
    push_step(alloc, plan, target, id, Subst::new(alloc), 0)
}

/// Whether a goal has a chosen proof.
pub fn has_chosen(
    alloc: Global,
    db: &Database,
    prover: &Prover,
    goal: &WStr,
) -> Result<bool, Memory>
    requires ready { IsReady db.now prover.now }
    requires string { IsString (first_setting db.now prover.now.search.at.0) goal.now }
    ensures { IfOk result (λ b. b ≡ is_there (chosen_tree (terms db.now prover.now.search) goal.now)) }
{
    let Some((code, text)) = goal.symbols().split_first() else {
        empty_has_none(db, prover);
        return Ok(false);
    };
    match choose(alloc, db, prover, *code, text)? {
        Choice::Nothing => Ok(false),
        Choice::Bare(_) | Choice::Charted(_) => Ok(true),
    }
}

/// How many steps the chosen proof of a goal has, where there is one.
///
/// # Errors
/// `TooManySteps` where they are more than 1,000,000.
pub fn chosen_size(
    alloc: Global,
    db: &Database,
    prover: &Prover,
    goal: &WStr,
) -> Result<u64, ImproveFault>
    requires ready { IsReady db.now prover.now }
    requires string { IsString (first_setting db.now prover.now.search.at.0) goal.now }
    ensures { IsCounted (chosen_tree (terms db.now prover.now.search) goal.now) result }
{
    let Some((code, text)) = goal.symbols().split_first() else {
        empty_has_none(db, prover);
        return Ok(0);
    };
    match choose(alloc, db, prover, *code, text)? {
        Choice::Nothing => Ok(0),
        Choice::Bare(_) => Ok(1),
        Choice::Charted(rows) => {
            let trace = steps_back(alloc, db, prover.search, *code, text, &rows)?;
            Ok(trace.parts.len() as u64)
        }
    }
}

/// Lays the chosen proof of a goal behind the trees of a plan, and answers whether there is one.
///
/// # Errors
/// `TooManySteps` only where the trees have more than 1,000,000 steps with it, and `TooDeep` only where it has more levels
/// than are left.
pub fn lay_chosen(
    alloc: Global,
    db: &Database,
    prover: &Prover,
    goal: &WStr,
    left: u32,
    plan: &mut Plan,
) -> Result<bool, ImproveFault>
    requires ready { IsReady db.now prover.now }
    requires string { IsString (first_setting db.now prover.now.search.at.0) goal.now }
    requires plan { IsPlan plan.old }
    ensures { LaysFound plan.old (chosen_tree (terms db.now prover.now.search) goal.now) left result plan.new }
{
    let Some((code, text)) = goal.symbols().split_first() else {
        empty_has_none(db, prover);
        return Ok(false);
    };
    match choose(alloc, db, prover, *code, text)? {
        Choice::Nothing => Ok(false),
        Choice::Bare(id) => {
            lay_bare(alloc, goal, id, left, plan)?;
            Ok(true)
        }
        Choice::Charted(rows) => {
            let whole = Part {
                code: *code,
                from: 0,
                to: text.len(),
            };
            let search = prover.search;
            lay_part(alloc, db, search, *code, text, &rows, whole, left, plan)?;
            Ok(true)
        }
    }
}
