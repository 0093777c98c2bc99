//! What rests on marked statements, and what they rest on, by the uses that a trace keeps: one pass over its lists each.

ghost use Rattle.std.specs.Prelude.{◌≡◌, ◌<◌, ◌||◌, IfOk, OnOk, false, get_or, length};
ghost use Rattle.std.specs.List.{list_any};
ghost use Rattle.mm_trace.specs.Marks.{AreMarks, IsEarlier, PassesOn};
ghost use Rattle.mm_trace.specs.Traces.{bears_marked, depends_in, rests_on_marked, uses_in};

use crate::closure::{is_marked, mark_all, some_rests};
use crate::trace::Trace;
use mm_scope::StmtId;
use std::alloc::{AllocError, Global};

/// Whether the statement at a place is marked.
fn is_marked_at(marks: &[bool], place: usize) -> bool
    ensures { result ≡ get_or marks.now place false }
{
    match marks.get(place) {
        Some(mark) => *mark,
        None => false,
    }
}

/// Whether one of these statements is marked.
fn some_marked(used: &[u32], marks: &[bool]) -> bool
    ensures { result ≡ list_any (λ m. get_or marks.now m false) used.now }
{
    used.iter().any(|m| is_marked(marks, *m))
}

/// Whether a statement is marked, or uses a marked one.
fn rests(marked: bool, used: &[u32], marks: &[bool]) -> bool
    ensures { result ≡ (marked || list_any (λ m. get_or marks.now m false) used.now) }
{
    marked || some_marked(used, marks)
}

impl Trace {
    /// Whether a statement depends on another.
    pub fn depends(&self, alloc: Global, id: StmtId, on: StmtId) -> Result<bool, AllocError>
        requires { IsEarlier (uses_in self.now) }
        ensures { IfOk result (λ b. b ≡ depends_in self.now id.0 on.0) }
    {
        let mut marks = Vec::new(alloc);
        for place in 0..id.0 as usize {
            let rests = some_rests(self.used_at(place), marks.as_slice(), on);
            marks.push(rests)?;
        }
        Ok(some_rests(self.used_at(id.0 as usize), marks.as_slice(), on))
    }

    /// Marks on the statements that are marked or depend on a marked one: upwards, each is marked that uses a marked one.
    pub fn dependents(&self, alloc: Global, marked: &[bool]) -> Result<Vec<bool>, AllocError>
        requires { IsEarlier (uses_in self.now) }
        ensures { IfOk result (λ v. AreMarks (rests_on_marked self.now marked.now) (length self.now) v.items) }
    {
        let mut marks = Vec::new(alloc);
        for place in 0..self.count() {
            let rests = rests(
                is_marked_at(marked, place),
                self.used_at(place),
                marks.as_slice(),
            );
            marks.push(rests)?;
        }
        Ok(marks)
    }

    /// Passes a statement's mark on to what it uses.
    fn pass_on(&self, place: usize, marks: &mut Vec<bool>)
        requires { place < length marks.old.items }
        ensures { PassesOn (uses_in self.now) place marks.old.items marks.new.items }
    {
        if marks[place] {
            mark_all(marks, self.used_at(place));
        }
    }

    /// The marks on this trace's statements.
    fn own_marks(&self, alloc: Global, marked: &[bool]) -> Result<Vec<bool>, AllocError>
        ensures { IfOk result (λ v. AreMarks (λ n. get_or marked.now n false) (length self.now) v.items) }
    {
        let mut marks = Vec::new(alloc);
        for place in 0..self.count() {
            marks.push(is_marked_at(marked, place))?;
        }
        Ok(marks)
    }

    /// Marks on the statements that are marked or on which a marked one depends: downwards, each marked one passes its mark
    /// on to what it uses.
    pub fn grounds(&self, alloc: Global, marked: &[bool]) -> Result<Vec<bool>, AllocError>
        requires { IsEarlier (uses_in self.now) }
        ensures { IfOk result (λ v. AreMarks (bears_marked self.now marked.now) (length self.now) v.items) }
    {
        let mut marks = self.own_marks(alloc, marked)?;
        let mut left = self.count();
        while left > 0 {
            left -= 1;
            self.pass_on(left, &mut marks);
        }
        Ok(marks)
    }
}
