//! The typecodes of a database's variables.

ghost use Rattle.std.specs.Prelude.{◌≡◌, map, filter_map, IfOk};
ghost use Rattle.mm_stated.specs.Typecodes.{AreTypecodes};
ghost use Rattle.mm_stated.specs.Statements.{stated};
ghost use Rattle.mm_stated.specs.Stated.{typecode_of};

use crate::mandatory::mark_all;
use crate::statement::{Kind, Statement};
use mm_tables::Marks;
use std::alloc::{AllocError, Global};

/// The typecode of a `$f`; none of another statement.
fn typecode_of(statement: &Statement) -> Option<u32>
    ensures { result ≡ typecode_of (stated statement.now) }
{
    match statement.kind {
        Kind::Float => statement.symbols.first().copied(),
        _ => None,
    }
}

/// The typecodes of the `$f` among statements, in order.
fn typecodes_among(alloc: Global, statements: &[Statement]) -> Result<Vec<u32>, AllocError>
    ensures { IfOk result (λ v. v.items ≡ filter_map (λ s. typecode_of (stated s)) statements.now) }
{
    statements
        .iter()
        .filter_map(|statement| typecode_of(statement))
        .collect(alloc)
}

/// Marks on the symbols that are the typecode of some `$f`.
pub fn typecodes_of(alloc: Global, statements: &[Statement]) -> Result<Marks, AllocError>
    ensures { IfOk result (λ m. AreTypecodes m (map stated statements.now)) }
{
    let typecodes = typecodes_among(alloc, statements)?;
    let mut marks = Marks::new(alloc);
    mark_all(&mut marks, typecodes.as_slice())?;
    Ok(marks)
}
