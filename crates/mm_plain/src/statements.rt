//! What holds of each labelled statement of a database.

ghost use Rattle.std.specs.Prelude.{◌≡◌, ◌<◌, ℕ, length};
ghost use Rattle.mm_scope.specs.Contents.{labels_of, statements_of};
ghost use Rattle.mm_subst.specs.Statements.{statement_of};
ghost use Rattle.mm_plain.specs.Valid.{IsString, first_setting};
ghost use Rattle.mm_plain.specs.Forms.{IsFormed};
ghost use Rattle.mm_plain.specs.Labels.{IsLabelled};

/// Each labelled statement begins with a constant, and has at most 32,768 symbols, all of them declared in the database.
/// A `$f` has two, and the second is a variable (Metamath book, section 4.1.3). There are as many statements as labels.
pub fn statements_are_formed(bytes: &[u8])
    ensures formed { (id : ℕ) → id < length (labels_of bytes.now) → IsFormed bytes.now id }
    ensures counted { length (statements_of bytes.now) ≡ length (labels_of bytes.now) }
{
    let _ = bytes;
}

/// Each labelled statement is a string without work variables. Any other number stands for the empty string.
pub fn statements_are_strings(bytes: &[u8])
    ensures { (at id : ℕ) → IsString (first_setting bytes.now at) (statement_of bytes.now id) }
{
    let _ = bytes;
}

/// The label of each labelled statement has letters, digits, `-`, `_` and `.` alone, 1 to 255 of them, and finds this
/// statement and no other.
pub fn labels_find_statements(bytes: &[u8])
    ensures { (id : ℕ) → id < length (labels_of bytes.now) → IsLabelled bytes.now id }
{
    let _ = bytes;
}
