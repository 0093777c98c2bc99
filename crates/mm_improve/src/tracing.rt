//! The steps of a chosen proof, read off the table.

ghost use Rattle.std.specs.Prelude.{◌≡◌, ◌<◌, ◌≤◌, ◌++◌, ◌∷◌, [], ℕ, true, map, length, IfOk, slice_index_or};
ghost use Rattle.mm_scope.specs.Contents.{labels_of};
ghost use Rattle.mm_plain.specs.Premises.{variables_for};
ghost use Rattle.mm_plain.specs.Valid.{most_steps};
ghost use Rattle.mm_chart.specs.Charts.{AreAnswersFor, ArePlaced};
ghost use Rattle.mm_improve.specs.Grammars.{grammar_of, order_for, place, place_or_none};
ghost use Rattle.mm_chart.specs.Items.{may_lead};
ghost use Rattle.mm_improve.specs.Proving.{rank_limit};
ghost use Rattle.mm_improve.specs.Searches.{terms};
ghost use Rattle.mm_improve.specs.Traces.{IsOver, IsRanked, IsTraced, keys_of, kids_of, no_part, whole};

use crate::conclusion::{itemized, place_or_none};
use crate::database::{Search, text_of};
use crate::fault::ImproveFault;
use mm_chart::{Entry, Part, Rows};
use mm_plain::variables_for;
use mm_scope::{Database, StmtId, mandatory_variables_differ};
use mm_subst::{Memory, WSym};
use mm_tree::MOST_STEPS;
use std::alloc::Global;
use std::marker::Model;

/// The variables of an assertion in order of first occurrence.
fn order_of(alloc: Global, db: &Database, id: StmtId, keys: &[u32]) -> Result<Vec<u32>, Memory>
    requires own { id.0 < length (labels_of db.now) }
    requires keys { keys.now ≡ variables_for db.now id.0 }
    ensures { IfOk result (λ v. v.items ≡ order_for db.now id.0) }
{
    let text = text_of(alloc, db, id)?;
    let conclusion = itemized(alloc, keys, &[], text.as_slice())?;
    Ok(conclusion.order)
}

fn part_at(parts: &[Part], place: usize) -> Part
    ensures { result ≡ slice_index_or parts.now place no_part }
{
    match parts.get(place) {
        Some(part) => *part,
        None => Part {
            code: WSym::Const(0),
            from: 0,
            to: 0,
        },
    }
}

/// Appends the part of each variable.
fn push_each(
    keys: &[u32],
    order: &[u32],
    parts: &[Part],
    stack: &mut Vec<Part>,
) -> Result<(), Memory>
    ensures { IfOk result (λ _. stack.new.items ≡ stack.old.items ++ map (λ n. slice_index_or parts.now (place_or_none (place order.now n)) no_part) keys.now) }
{
    for key in keys {
        stack.push(part_at(parts, place_or_none(order, *key)))?;
    }
    Ok(())
}

/// Appends the parts for the hypotheses of what an entry names, and answers its variables.
pub fn push_kids(
    alloc: Global,
    db: &Database,
    entry: &Entry,
    stack: &mut Vec<Part>,
) -> Result<Vec<u32>, Memory>
    requires { 0 < entry.now.rank → entry.now.id < length (labels_of db.now) }
    ensures kids { IfOk result (λ _. stack.new.items ≡ stack.old.items ++ kids_of db.now entry.now) }
    ensures keys { IfOk result (λ v. v.items ≡ keys_of db.now entry.now) }
{
    if entry.rank == 0 {
        return Ok(Vec::new(alloc));
    }
    let keys = variables_for(alloc, db, StmtId(entry.id))?;
    let order = order_of(alloc, db, StmtId(entry.id), keys.as_slice())?;
    push_each(
        keys.as_slice(),
        order.as_slice(),
        entry.parts.as_slice(),
        stack,
    )?;
    Ok(keys)
}

/// Appends parts over whose trees the tree of a part is one step.
fn step_down(
    alloc: Global,
    db: &Database,
    search: Search,
    goal: WSym,
    text: &[WSym],
    rows: &Rows,
    part: Part,
    stack: &mut Vec<Part>,
) -> Result<(), Memory>
    requires own { search.at.0 < length (labels_of db.now) }
    requires ordered { part.from < part.to }
    requires within { part.to ≤ length text.now }
    requires leads { may_lead (grammar_of (terms db.now search)) goal part.code ≡ true }
    requires answers { AreAnswersFor (grammar_of (terms db.now search)) goal text.now rows.now }
    requires placed { ArePlaced text.now rows.now }
    ensures { IfOk result (λ _. (r : ℕ) → IsRanked (terms db.now search) r goal text.now part → IsOver (terms db.now search) r goal text.now part stack.old.items stack.new.items) }
{
    mandatory_variables_differ(db.bytes());
    let _ = search;
    let _ = goal;
    let _ = text;
    match rows.find(part.from, part.code, part.to) {
        Some(entry) => {
            push_kids(alloc, db, entry, stack)?;
            Ok(())
        }
        None => Ok(()),
    }
}

/// The parts of the text that the steps of a chosen proof prove, from the last to the first. A part that is proved several
/// times stands as often.
#[derive(Drop)]
pub struct Trace {
    pub parts: Vec<Part>,
}

impl Model for Trace {
    ghost use Rattle.std.specs.Prelude.{List};
    ghost use Rattle.mm_chart.specs.declared.table.Part.{Part};

    ghost Value = { List Part };

    ghost view = { λ t. t.parts.items };
}

fn append(parts: &mut Vec<Part>, part: Part) -> Result<(), Memory>
    ensures { IfOk result (λ _. parts.new.items ≡ parts.old.items ++ part ∷ []) }
{
    parts.push(part)?;
    Ok(())
}

/// The steps of the chosen proof of a goal that has a rank.
///
/// # Errors
/// `TooManySteps` exactly where it has more than 1,000,000 steps.
pub fn steps_back(
    alloc: Global,
    db: &Database,
    search: Search,
    code: WSym,
    text: &[WSym],
    rows: &Rows,
) -> Result<Trace, ImproveFault>
    requires own { search.at.0 < length (labels_of db.now) }
    requires answers { AreAnswersFor (grammar_of (terms db.now search)) code text.now rows.now }
    requires placed { ArePlaced text.now rows.now }
    requires ranked { IsRanked (terms db.now search) (rank_limit db.now (code ∷ text.now)) code text.now (whole code text.now) }
    ensures traced { IsTraced (terms db.now search) (rank_limit db.now (code ∷ text.now)) text.now (whole code text.now) result }
    ensures few { IfOk result (λ t. length t ≤ most_steps) }
{
    let mut parts = Vec::new(alloc);
    let mut stack = Vec::new(alloc);
    let whole = Part {
        code,
        from: 0,
        to: text.len(),
    };
    append(&mut stack, whole)?;
    for _ in 0..MOST_STEPS {
        let Some(part) = stack.pop() else {
            return Ok(Trace { parts });
        };
        step_down(alloc, db, search, code, text, rows, part, &mut stack)?;
        append(&mut parts, part)?;
    }
    if stack.is_empty() {
        Ok(Trace { parts })
    } else {
        Err(ImproveFault::TooManySteps)
    }
}
