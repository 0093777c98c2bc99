ghost use Rattle.std.specs.Prelude.{◌≡◌, ◌<◌, IfOk, length};
ghost use Rattle.mm_scope.specs.Contents.{labels_of};
ghost use Rattle.mm_shell.specs.Answers.{Answers};
ghost use Rattle.mm_database_commands.specs.Commands.{listing, served, trace_back, traced, usage};

use mm_scope::{Database, StmtId};
use mm_shell::{
    Change, DatabaseRef, Done, Refusal, Report, State, Statements, find_database, find_statement,
};
use mm_trace::{axioms, depended_on, dependents, users};
use std::alloc::{AllocError as Memory, Global};

/// Lists the statements on which one depends, or the axioms among them.
#[tactic(auto, unfolding(mm_shell::specs::Answers::given))]
pub fn trace_back<'a>(
    alloc: Global,
    state: &'a State,
    label: &'a [u8],
    only_axioms: bool,
) -> Result<Done<'a>, Refusal<'a>>
    ensures { Answers (trace_back state.now label.now only_axioms) result }
{
    let database = find_database(state)?;
    let id = find_statement(database, label)?;
    let statements = traced(alloc, database, only_axioms, id)?;
    Ok(listing(database, statements))
}

/// Lists the statements that use one, or that depend on it.
#[tactic(auto, unfolding(mm_shell::specs::Answers::given))]
pub fn usage<'a>(
    alloc: Global,
    state: &'a State,
    label: &'a [u8],
    recursive: bool,
) -> Result<Done<'a>, Refusal<'a>>
    ensures { Answers (usage state.now label.now recursive) result }
{
    let database = find_database(state)?;
    let id = find_statement(database, label)?;
    let statements = served(alloc, database, recursive, id)?;
    Ok(listing(database, statements))
}

// What is done where statements of a database are listed.
fn listing<'a>(database: &'a Database, statements: Statements) -> Done<'a>
    ensures { result ≡ listing database.now statements }
{
    Done {
        report: Report::Listed(DatabaseRef::new(database), statements),
        change: Change::Stays,
    }
}

// The statements on which one depends, or the axioms among them.
fn traced(
    alloc: Global,
    database: &Database,
    only_axioms: bool,
    id: StmtId,
) -> Result<Statements, Memory>
    requires { id.0 < length (labels_of database.now) }
    ensures { IfOk result (λ v. v ≡ traced database.now only_axioms id.0) }
{
    let ids = if only_axioms {
        axioms(alloc, database, id)?
    } else {
        depended_on(alloc, database, id)?
    };
    Ok(Statements::new(ids))
}

// The statements that use one, or that depend on it.
fn served(
    alloc: Global,
    database: &Database,
    recursive: bool,
    id: StmtId,
) -> Result<Statements, Memory>
    ensures { IfOk result (λ v. v ≡ served database.now recursive id.0) }
{
    let ids = if recursive {
        dependents(alloc, database, id)?
    } else {
        users(alloc, database, id)?
    };
    Ok(Statements::new(ids))
}
