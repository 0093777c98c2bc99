//! The table.

ghost use Rattle.std.specs.Prelude.{◌≡◌, ◌<◌, ◌≤◌, ℕ, List, [], ◌∷◌, ◌++◌, length, slice_index_or, slice_set, replicate, Some, None, IfOk, MatchOption};
ghost use Rattle.mm_chart.specs.Charts.{Noted, entry_at, entry_in, closer, nearest, IsNextOrNone};
ghost use Rattle.mm_chart.specs.Options.{is_there};

use mm_subst::{Memory, WSym};
use std::alloc::Global;
use std::marker::Model;

/// A part of the text that stands for a variable of a typecode.
#[derive(Clone, Copy, Debug)]
pub struct Part {
    pub code: WSym,
    pub from: usize,
    pub to: usize,
}

/// The chosen proof of a part of the text.
#[derive(Drop)]
pub struct Entry {
    pub code: WSym,
    pub to: usize,
    pub rank: u64,
    pub id: u32,
    pub parts: Vec<Part>,
}

impl Model for Entry {
    ghost use Rattle.mm_chart.specs.Charts.{Noted};

    ghost Value = { Noted };

    ghost view = { λ e. record { code = e.code; to = e.to; rank = e.rank; id = e.id; parts = e.parts.items } };
}

impl Entry {
    /// The same entry once more.
    pub fn copy(&self, alloc: Global) -> Result<Entry, Memory>
        ensures { IfOk result (λ e. e ≡ self.now) }
    {
        let parts = Vec::from_slice(alloc, self.parts.as_slice())?;
        Ok(Entry {
            code: self.code,
            to: self.to,
            rank: self.rank,
            id: self.id,
            parts,
        })
    }
}

/// The entries of the parts that begin at one place.
#[derive(Drop)]
struct Row {
    entries: Vec<Entry>,
}

impl Model for Row {
    ghost use Rattle.std.specs.Prelude.{List};
    ghost use Rattle.mm_chart.specs.Charts.{Noted};

    ghost Value = { List Noted };

    ghost view = { λ r. r.entries.items };
}

/// A row for each place.
#[derive(Drop)]
pub struct Rows {
    rows: Vec<Row>,
}

impl Model for Rows {
    ghost use Rattle.std.specs.Prelude.{List};
    ghost use Rattle.mm_chart.specs.Charts.{Noted};

    ghost Value = { List (List Noted) };

    ghost view = { λ r. r.rows.items };
}

fn closer(next: Option<(usize, u64)>, to: usize, rank: u64) -> Option<(usize, u64)>
    ensures { result ≡ closer next (to, rank) }
{
    match next {
        None => Some((to, rank)),
        Some(best) => {
            if best.0 <= to {
                Some(best)
            } else {
                Some((to, rank))
            }
        }
    }
}

/// The nearest end after one more entry.
fn nearest(
    next: Option<(usize, u64)>,
    entry: &Entry,
    code: WSym,
    last: usize,
    to: usize,
) -> Option<(usize, u64)>
    ensures { result ≡ nearest code last to next entry.now }
{
    if entry.code.is_same(code) && last < entry.to && entry.to <= to {
        closer(next, entry.to, entry.rank)
    } else {
        next
    }
}

impl Row {
    /// The next place after `last`, up to `to`, where a part of a typecode ends, with its rank.
    fn next(&self, code: WSym, last: usize, to: usize) -> Option<(usize, u64)>
        ensures { IsNextOrNone self.now code last to result }
    {
        let mut next = None;
        for entry in &self.entries {
            next = nearest(next, entry, code, last, to);
        }
        next
    }

    /// The entry of a part.
    fn find(&self, code: WSym, to: usize) -> Option<&Entry>
        ensures { MatchOption result (entry_in self.now code to ≡ None) (λ e. entry_in self.now code to ≡ Some e.now) }
    {
        for entry in &self.entries {
            if entry.code.is_same(code) && entry.to == to {
                return Some(entry);
            }
        }
        None
    }
}

impl Rows {
    pub fn empty(alloc: Global, count: usize) -> Result<Rows, Memory>
        ensures { IfOk result (λ r. r ≡ replicate count []) }
    {
        let mut rows = Vec::new(alloc);
        for _ in 0..count {
            rows.push(Row {
                entries: Vec::new(alloc),
            })?;
        }
        Ok(Rows { rows })
    }

    pub fn next(&self, at: usize, code: WSym, last: usize, to: usize) -> Option<(usize, u64)>
        ensures { IsNextOrNone (slice_index_or self.now at []) code last to result }
    {
        match self.rows.get(at) {
            Some(row) => row.next(code, last, to),
            None => None,
        }
    }

    pub fn find(&self, at: usize, code: WSym, to: usize) -> Option<&Entry>
        ensures { MatchOption result (entry_at self.now at code to ≡ None) (λ e. entry_at self.now at code to ≡ Some e.now) }
    {
        match self.rows.get(at) {
            Some(row) => row.find(code, to),
            None => None,
        }
    }

    pub fn has(&self, at: usize, code: WSym, to: usize) -> bool
        ensures { result ≡ is_there (entry_at self.now at code to) }
    {
        self.find(at, code, to).is_some()
    }

    pub fn add(&mut self, at: usize, entry: Entry) -> Result<(), Memory>
        requires { at < length self.old }
        ensures { IfOk result (λ _. self.new ≡ slice_set self.old at (slice_index_or self.old at [] ++ entry ∷ [])) }
    {
        self.rows[at].entries.push(entry)?;
        Ok(())
    }
}
