//! What SHOW TRACE_BACK and SHOW USAGE list.

ghost use Rattle.std.specs.Prelude.{◌≡◌, ◌++◌, IfOk, OnOk, map};
ghost use Rattle.mm_shell.specs.Listings.{count_line, statement_line, statements_text};

use crate::names::label_text;
use crate::text::Text;
use itoa::Buffer;
use mm_base::Memory;
use mm_scope::{Database, StmtId};
use std::alloc::Global;

/// Appends the line of a statement.
#[tactic(auto, unfolding(crate::specs::Listings::statement_line))]
fn push_statement(database: &Database, id: StmtId, into: &mut Vec<u8>) -> Result<(), Memory>
    ensures { OnOk result (into.new.items ≡ into.old.items ++ statement_line database.now id.0) }
{
    into.extend_from_slice(b"  ")?;
    into.extend_from_slice(label_text(database, id))?;
    into.push(b'\n')?;
    Ok(())
}

/// Appends the last line: how many statements there are.
#[tactic(auto, unfolding(crate::specs::Listings::count_line))]
fn push_count(count: usize, into: &mut Vec<u8>) -> Result<(), Memory>
    ensures { OnOk result (into.new.items ≡ into.old.items ++ count_line count) }
{
    let mut buffer = Buffer::new();
    into.extend_from_slice(b"Statements ")?;
    into.extend_from_slice(buffer.format(count).as_bytes())?;
    into.extend_from_slice(b".\n")?;
    Ok(())
}

/// The answer that lists these statements.
pub fn statements_text(alloc: Global, database: &Database, ids: &[StmtId]) -> Result<Text, Memory>
    ensures { IfOk result (λ text. text ≡ statements_text database.now (map (λ i. i.0) ids.now)) }
{
    let mut text = Vec::new(alloc);
    for id in ids {
        push_statement(database, *id, &mut text)?;
    }
    push_count(ids.len(), &mut text)?;
    Ok(Text::new(b"", text))
}
