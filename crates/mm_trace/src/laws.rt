//! What the definition of dependence says.

ghost use Rattle.std.specs.Prelude.{◌≡◌, ◌<◌, ℕ, length, true};
ghost use Rattle.mm_scope.specs.Contents.{labels_of};
ghost use Rattle.mm_trace.specs.Marks.{IsEarlier};
ghost use Rattle.mm_trace.specs.Traces.{depends_in, trace_of, uses_in};
ghost use Rattle.mm_trace.specs.Uses.{Depends, depends, uses};

/// A use is of an earlier statement. So a statement depends on another exactly where a way of uses leads to it.
#[tactic(auto, unfolding(crate::specs::Uses::depends))]
pub fn ways_are_found(bytes: &[u8])
    ensures earlier { IsEarlier (uses bytes.now) }
    ensures sound { (id on : ℕ) → depends bytes.now id on ≡ true → Depends (uses bytes.now) id on }
    ensures complete { (id on : ℕ) → Depends (uses bytes.now) id on → depends bytes.now id on ≡ true }
{
    let _ = bytes;
}

/// By the trace of a database each of its statements uses, and depends on, what it does by the database.
#[tactic(auto, unfolding(crate::specs::Uses::depends))]
pub fn traces_tell_uses(bytes: &[u8])
    ensures uses { (id on : ℕ) → id < length (labels_of bytes.now) → uses_in (trace_of bytes.now) id on ≡ uses bytes.now id on }
    ensures dependence { (id on : ℕ) → id < length (labels_of bytes.now) → depends_in (trace_of bytes.now) id on ≡ depends bytes.now id on }
{
    let _ = bytes;
}

/// By the trace of a database each use is of an earlier statement, and there is a list for each statement.
pub fn traces_are_earlier(bytes: &[u8])
    ensures earlier { IsEarlier (uses_in (trace_of bytes.now)) }
    ensures count { length (trace_of bytes.now) ≡ length (labels_of bytes.now) }
{
    let _ = bytes;
}
