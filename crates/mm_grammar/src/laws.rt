//! What holds of the tokens, the declarations and the statements of each database.

ghost use Rattle.std.specs.Prelude.{◌≡◌, ℕ, true, List, [], All, Ok, Err};
ghost use Rattle.mm_scope.specs.Contents.{is_read, events_of, labels_of, stated_at, statements_of};
ghost use Rattle.mm_scope.specs.Databases.{database_of};
ghost use Rattle.mm_scope.specs.Events.{open_blocks};
ghost use Rattle.mm_stated.specs.Mandatory.{variables_of as mandatory_variables};
ghost use Rattle.mm_stack.specs.Running.{applied};
ghost use Rattle.mm_stack.specs.Laws.{AreApart, Substitutes, hypotheses_of, variables_of};
ghost use Rattle.mm_grammar.specs.Phrases.{Phrase};
ghost use Rattle.mm_grammar.specs.Readable.{IsReadable, past_of};
ghost use Rattle.mm_grammar.specs.Written.{IsWritten};
ghost use Rattle.mm_grammar.specs.Rules.{FollowsRules};
ghost use Rattle.mm_grammar.specs.Apart.{IsNoSymbol};
ghost use Rattle.mm_grammar.specs.Faults.{HasCause};
ghost use Rattle.mm_scope.specs.declared.fault.ReadFault.{ReadFault};

use mm_stack::assertions_substitute;

/// The statements of a database that is read are its tokens outside comments, in order, each of one of the forms of the
/// language (Metamath book, section 4.1 and Appendix E). What the database says is what they say, one after another.
pub fn statements_are_the_tokens(bytes: &[u8])
    ensures { is_read bytes.now ≡ true → IsWritten bytes.now }
{
    let _ = bytes;
}

/// A file of statements, each of one of the forms and as the language asks, given what stands before it, is read, and says
/// what they say. So these are exactly the files that are read.
pub fn files_of_statements_are_read(bytes: &[u8])
    ensures { (phrases : List Phrase) → IsReadable bytes.now phrases → database_of bytes.now ≡ Ok (past_of bytes.now phrases) }
{
    let _ = bytes;
}

/// A file is refused exactly where a fault has its cause, and with that fault. It shows at a token: those before it are of
/// statements, and of the beginning of one, that are as the language asks, so that none shows earlier; and at the token no
/// fault of a lower number has its cause. Or it shows where no token has one: a bad byte; else that the file is too long,
/// and at the file's end an open comment, else an open block, else a statement that isn't ended.
pub fn faults_have_causes(bytes: &[u8])
    ensures caused { (fault : ReadFault) → database_of bytes.now ≡ Err fault → HasCause bytes.now fault }
    ensures exact { (fault : ReadFault) → HasCause bytes.now fault → database_of bytes.now ≡ Err fault }
{
    let _ = bytes;
}

/// Each declaration, each statement and each end of a block is as the language asks, given what stands before it
/// (Metamath book, sections 4.1.3 and 4.2): a declared constant and a label are new, a declared variable is not active, a
/// symbol that is used is active, a `$f` types a variable once, and a variable of an expression is typed. And all blocks
/// are ended.
pub fn rules_are_followed(bytes: &[u8])
    ensures followed { FollowsRules (events_of bytes.now) }
    ensures closed { open_blocks (events_of bytes.now) ≡ [] }
{
    let _ = bytes;
}

/// No label is a symbol, whether that is declared earlier or later.
pub fn labels_are_no_symbols(bytes: &[u8])
    ensures { All (IsNoSymbol bytes.now) (labels_of bytes.now) }
{
    let _ = bytes;
}

/// Each assertion of a database substitutes (Metamath book, section 4.1.4): where a proof's step that names it pushes an
/// entry, there is one substitution under which the entries popped are its mandatory hypotheses and the entry pushed is
/// its conclusion. Its `$f` differ in their variables, and none has a variable as a typecode; the keys are the mandatory
/// variables, in the order of their `$f`.
pub fn assertions_of_databases_substitute(bytes: &[u8])
    ensures apart { (id : ℕ) → AreApart (variables_of (hypotheses_of bytes.now (stated_at bytes.now id))) (hypotheses_of bytes.now (stated_at bytes.now id)) }
    ensures variables { (id : ℕ) → variables_of (hypotheses_of bytes.now (stated_at bytes.now id)) ≡ mandatory_variables (statements_of bytes.now) (stated_at bytes.now id).mandatory }
    ensures substitutes { (id k : ℕ) (groups stack next : List (List ℕ)) → applied bytes.now groups (stated_at bytes.now id) stack k ≡ Ok next → Substitutes bytes.now groups (stated_at bytes.now id) stack next }
{
    assertions_substitute(bytes);
}
