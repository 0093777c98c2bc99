//! What the machine's definitions say together.

ghost use Rattle.std.specs.Prelude.{◌≡◌, ℕ, List, Ok};
ghost use Rattle.mm_stated.specs.Stated.{Stated};
ghost use Rattle.mm_stack.specs.Running.{applied};
ghost use Rattle.mm_stack.specs.Laws.{AreApart, Substitutes, hypotheses_of, variables_of};

/// Where an assertion pushes an entry, there is one substitution under which the entries popped are its mandatory
/// hypotheses and the entry pushed is its conclusion (Metamath book, section 4.1.4). It is the one that the entries of its
/// `$f` fix, has their variables as its keys, and keeps its pairs of variables apart. This holds where its `$f` differ in
/// their variables, and have no variable as a typecode.
pub fn assertions_substitute(bytes: &[u8])
    ensures { (a : Stated) (k : ℕ) (groups stack next : List (List ℕ)) → AreApart (variables_of (hypotheses_of bytes.now a)) (hypotheses_of bytes.now a) → applied bytes.now groups a stack k ≡ Ok next → Substitutes bytes.now groups a stack next }
{
    let _ = bytes;
}
