//! The mandatory hypotheses of an assertion, and their variables.

ghost use Rattle.std.specs.Prelude.{◌≡◌, ◌||◌, ◌==◌, ℕ, [], map, flat_map, fold, OnOk, IfOk};
ghost use Rattle.std.specs.List.{list_any};
ghost use Rattle.mm_stated.specs.Statements.{stated};
ghost use Rattle.mm_stated.specs.Mandatory.{statement_at, variables_of};
ghost use Rattle.mm_stated.specs.Needed.{floats_of, candidates, needed_by};
ghost use Rattle.mm_stated.specs.Stated.{variable_of};
ghost use Rattle.mm_tables.specs.Marked.{is_marked, with_number};

use crate::statement::{Kind, Statement};
use mm_tables::{Gathered, Marks, SymbolTable};
use std::alloc::{AllocError, Global};

/// Marks each of the numbers.
pub(crate) fn mark_all(marks: &mut Marks, numbers: &[u32]) -> Result<(), AllocError>
    ensures { OnOk result ((n : ℕ) → is_marked marks.new n ≡ (is_marked marks.old n || list_any (λ m. n == m) numbers.now)) }
{
    for number in numbers {
        marks.mark(*number)?;
    }
    Ok(())
}

/// The symbols of a statement; none where there is none.
fn symbols_at(statements: &[Statement], id: u32) -> &[u32]
    ensures { result.now ≡ (statement_at (map stated statements.now) id).symbols }
{
    match statements.get(id as usize) {
        Some(statement) => statement.symbols.as_slice(),
        None => &[],
    }
}

/// Gathers numbers.
fn gather_all(gathered: &mut Gathered, numbers: &[u32]) -> Result<(), AllocError>
    ensures { OnOk result (gathered.new ≡ fold with_number gathered.old numbers.now) }
{
    for number in numbers {
        gathered.insert(*number)?;
    }
    Ok(())
}

/// Gathers the ids of the active `$f` of symbols.
fn gather_floats(
    gathered: &mut Gathered,
    table: &SymbolTable,
    symbols: &[u32],
) -> Result<(), AllocError>
    ensures { OnOk result (gathered.new ≡ fold with_number gathered.old (floats_of table.now symbols.now)) }
{
    for symbol in symbols {
        let standing = table.standing(*symbol);
        if standing.floated {
            gathered.insert(standing.float)?;
        }
    }
    Ok(())
}

/// Gathers the ids of the active `$f` of the symbols of statements.
fn gather_floats_at(
    gathered: &mut Gathered,
    table: &SymbolTable,
    statements: &[Statement],
    ids: &[u32],
) -> Result<(), AllocError>
    ensures { OnOk result (gathered.new ≡ fold with_number gathered.old (floats_of table.now (flat_map (λ id. (statement_at (map stated statements.now) id).symbols) ids.now))) }
{
    for id in ids {
        gather_floats(gathered, table, symbols_at(statements, *id))?;
    }
    Ok(())
}

/// Gathers the ids of the mandatory hypotheses of an assertion with these symbols.
#[tactic(auto, using(crate::proofs::Gathering::all_gathered))]
fn gather_needed(
    gathered: &mut Gathered,
    table: &SymbolTable,
    statements: &[Statement],
    essentials: &[u32],
    symbols: &[u32],
) -> Result<(), AllocError>
    ensures { OnOk result (gathered.new ≡ fold with_number [] (candidates table.now (map stated statements.now) essentials.now symbols.now)) }
{
    gathered.clear();
    gather_all(gathered, essentials)?;
    gather_floats(gathered, table, symbols)?;
    gather_floats_at(gathered, table, statements, essentials)
}

/// The ids of the mandatory hypotheses of an assertion with these symbols, in order. It takes the time of a walk over
/// its symbols and those of the active `$e`, and of sorting what it answers.
#[tactic(auto, unfolding(crate::specs::Needed::needed_by))]
pub fn mandatory_of(
    alloc: Global,
    gathered: &mut Gathered,
    table: &SymbolTable,
    statements: &[Statement],
    essentials: &[u32],
    symbols: &[u32],
) -> Result<Vec<u32>, AllocError>
    ensures { IfOk result (λ v. v.items ≡ needed_by table.now (map stated statements.now) essentials.now symbols.now) }
{
    gather_needed(gathered, table, statements, essentials, symbols)?;
    let mut needed = Vec::from_slice(alloc, gathered.as_slice())?;
    needed.sort()?;
    Ok(needed)
}

/// The variable of a `$f`; none of another statement.
fn variable_of(statements: &[Statement], id: u32) -> Option<u32>
    ensures { result ≡ variable_of (statement_at (map stated statements.now) id) }
{
    let statement = statements.get(id as usize)?;
    match statement.kind {
        Kind::Float => statement.symbols.get(1).copied(),
        _ => None,
    }
}

/// The variables of the `$f` among statements, in order.
#[tactic(auto, unfolding(crate::specs::Mandatory::variables_of))]
pub fn variables_of(
    alloc: Global,
    statements: &[Statement],
    ids: &[u32],
) -> Result<Vec<u32>, AllocError>
    ensures { IfOk result (λ v. v.items ≡ variables_of (map stated statements.now) ids.now) }
{
    ids.iter()
        .filter_map(|id| variable_of(statements, *id))
        .collect(alloc)
}
