//! What holds of each database.

ghost use Rattle.std.specs.Prelude.{◌+◌, ◌≡◌, ℕ, take};
ghost use Rattle.mm_stated.specs.Mandatory.{variables_of};
ghost use Rattle.mm_scope.specs.Contents.{events_of, statements_of, stated_at};
ghost use Rattle.mm_scope.specs.Databases.{database_of};
ghost use Rattle.mm_scope.specs.Laws.{SymbolsAreActive, SymbolsAreNumbered, LabelsDiffer, AllDiffer};
ghost use Rattle.mm_scope.specs.Events.{symbols};
ghost use Rattle.mm_scope.specs.Judged.{most_bytes};

/// A file longer than 134,217,728 bytes is judged by one byte more than that: what stands later changes nothing.
pub fn first_bytes_decide(bytes: &[u8])
    ensures { database_of (take (most_bytes + 1) bytes.now) ≡ database_of bytes.now }
{
    let _ = bytes;
}

/// Where a statement stands, each of its symbols was declared: as a constant, or as a variable in a block that has not
/// ended (Metamath book, section 4.1.3). And a symbol's number is the place of its text among all symbols.
pub fn symbols_are_declared(bytes: &[u8])
    ensures active { SymbolsAreActive (events_of bytes.now) }
    ensures numbered { SymbolsAreNumbered (symbols (events_of bytes.now)) (events_of bytes.now) }
{
    let _ = bytes;
}

/// No two labelled statements have the same label.
pub fn labels_differ(bytes: &[u8])
    ensures { LabelsDiffer (events_of bytes.now) }
{
    let _ = bytes;
}

/// The mandatory variables of an assertion differ: no variable is mandatory by two `$f`.
pub fn mandatory_variables_differ(bytes: &[u8])
    ensures { (id : ℕ) → AllDiffer (variables_of (statements_of bytes.now) (stated_at bytes.now id).mandatory) }
{
    let _ = bytes;
}
