//! Past and future versions of a proof.

ghost use Rattle.std.specs.Prelude.{◌≡◌, [], ◌∷◌, ◌++◌, false, IfOk, OnOk, OnErr, length, map};
ghost use Rattle.circular_buffer.specs.Buffer.{keep_last};
ghost use Rattle.mm_tree.specs.Versions.{HasNoDrafts, Versions, named};
ghost use Rattle.mm_undo.specs.Histories.{IsMarkOfBeginning, IsHistoryOf, IsRedone, IsUndone, lists_of};

use circular_buffer::HeapCircularBuffer;
use mm_tree::{Mark, Tree};
use std::alloc::{AllocError, Global};
use std::marker::Model;

/// Empty rings for a history, whose memory is taken before they are needed. They are seen as the depth of that history.
#[derive(Drop)]
pub struct Rings {
    past: HeapCircularBuffer<Mark>,
    future: HeapCircularBuffer<Mark>,
    depth: u32,
}

impl Model for Rings {
    ghost use Rattle.std.specs.Prelude.{◌≡◌, ℕ, []};
    ghost use Rattle.circular_buffer.specs.Buffer.{buffer};

    ghost Value = { ℕ };

    ghost view = { λ r. r.depth };

    ghost invariant = { λ r. (r.past ≡ buffer [] r.depth) × (r.future ≡ buffer [] r.depth) };
}

impl Rings {
    /// Rings for a history that keeps so many versions.
    pub fn new(alloc: Global, depth: u32) -> Result<Rings, AllocError>
        ensures { IfOk result (λ rings. rings ≡ depth) }
    {
        let past = HeapCircularBuffer::with_capacity(alloc, depth as usize)?;
        let future = HeapCircularBuffer::with_capacity(alloc, depth as usize)?;
        Ok(Rings {
            past,
            future,
            depth,
        })
    }

    /// The depth of that history.
    pub fn depth(&self) -> u32
        ensures { result ≡ self.now }
    {
        self.depth
    }
}

/// The versions of a proof before its edits, the oldest first, and those that were undone, the one undone last first; and how
/// many are kept. Both stand in rings whose room is taken by `new` and `set_depth`, so no other call takes memory.
///
/// Who holds a history with its tree keeps `IsHistoryOf` (`specs/Histories.antt`) between commands: each call here keeps it, and
/// so does each edit of the tree, as `edits_keep_histories` says.
#[derive(Drop)]
pub struct History {
    past: HeapCircularBuffer<Mark>,
    future: HeapCircularBuffer<Mark>,
    depth: u32,
}

impl Model for History {
    ghost use Rattle.std.specs.Prelude.{◌≡◌, ◌+◌, ◌≤◌, length};
    ghost use Rattle.mm_undo.specs.Histories.{Marks};

    ghost Value = { Marks };

    ghost view = { λ h. record { past = h.past.items; future = h.future.items; depth = h.depth } };

    ghost invariant = { λ h. (h.past.capacity ≡ h.depth) × (h.future.capacity ≡ h.depth) × (length h.past.items + length h.future.items ≤ h.depth) };
}

impl History {
    /// A history without versions.
    pub fn new(alloc: Global, depth: u32) -> Result<History, AllocError>
        ensures empty { IfOk result (λ h. h ≡ record { past = []; future = []; depth = depth }) }
        ensures held { IfOk result (λ h. (v : Versions) → IsHistoryOf v h) }
    {
        let past = HeapCircularBuffer::with_capacity(alloc, depth as usize)?;
        let future = HeapCircularBuffer::with_capacity(alloc, depth as usize)?;
        Ok(History {
            past,
            future,
            depth,
        })
    }

    /// How many versions can be undone.
    pub fn past_count(&self) -> usize
        ensures { result ≡ length self.now.past }
    {
        self.past.len()
    }

    /// How many versions can be done again.
    pub fn future_count(&self) -> usize
        ensures { result ≡ length self.now.future }
    {
        self.future.len()
    }

    /// How many versions are kept.
    pub fn depth(&self) -> u32
        ensures { result ≡ self.now.depth }
    {
        self.depth
    }

    /// Keeps the version before an edit. The oldest version is dropped where there are too many, and nothing is left to redo.
    pub fn keep(&mut self, m: Mark)
        ensures past { self.new.past ≡ keep_last self.old.depth (self.old.past ++ m ∷ []) }
        ensures future { self.new.future ≡ [] }
        ensures depth { self.new.depth ≡ self.old.depth }
        ensures held { (v : Versions) → IsHistoryOf v self.old → IsMarkOfBeginning v m → IsHistoryOf v self.new }
    {
        self.future.clear();
        let _ = self.past.push_back(m);
    }

    /// Keeps the version before an edit, at which the drafts begin, and makes the edit lasting: `keep`, and then `settle`.
    pub fn accept(&mut self, tree: &mut Tree, m: Mark)
        requires held { IsHistoryOf tree.old.versions self.old }
        requires begun { IsMarkOfBeginning tree.old.versions m }
        ensures past { map (named tree.new.versions) self.new.past ≡ keep_last self.old.depth (map (named tree.old.versions) self.old.past ++ named tree.old.versions m ∷ []) }
        ensures future { self.new.future ≡ [] }
        ensures depth { self.new.depth ≡ self.old.depth }
        ensures proof { tree.new.proof ≡ tree.old.proof }
        ensures held { IsHistoryOf tree.new.versions self.new }
        ensures settled { HasNoDrafts tree.new.versions }
    {
        self.keep(m);
        tree.settle();
    }

    /// Goes back to the last version before this one; `false` where there is none.
    pub fn undo(&mut self, tree: &mut Tree) -> bool
        requires held { IsHistoryOf tree.old.versions self.old }
        requires settled { HasNoDrafts tree.old.versions }
        ensures undone { IsUndone result (lists_of tree.old.versions self.old) (lists_of tree.new.versions self.new) tree.old.proof tree.new.proof }
        ensures none { result ≡ false → (self.new ≡ self.old) × (tree.new ≡ tree.old) }
        ensures held { IsHistoryOf tree.new.versions self.new }
        ensures settled { HasNoDrafts tree.new.versions }
    {
        match self.past.pop_back() {
            None => false,
            Some(earlier) => {
                let later = tree.mark();
                tree.back(earlier);
                let _ = self.future.push_front(later);
                true
            }
        }
    }

    /// Goes forward to the version that was undone last; `false` where there is none.
    pub fn redo(&mut self, tree: &mut Tree) -> bool
        requires held { IsHistoryOf tree.old.versions self.old }
        requires settled { HasNoDrafts tree.old.versions }
        ensures redone { IsRedone result (lists_of tree.old.versions self.old) (lists_of tree.new.versions self.new) tree.old.proof tree.new.proof }
        ensures none { result ≡ false → (self.new ≡ self.old) × (tree.new ≡ tree.old) }
        ensures held { IsHistoryOf tree.new.versions self.new }
        ensures settled { HasNoDrafts tree.new.versions }
    {
        match self.future.pop_front() {
            None => false,
            Some(later) => {
                let earlier = tree.mark();
                tree.forward(later);
                let _ = self.past.push_back(earlier);
                true
            }
        }
    }

    /// Keeps the newest `n` versions of the past, and nothing to redo. Where that is refused the history is as before.
    pub fn set_depth(&mut self, alloc: Global, n: u32) -> Result<(), AllocError>
        ensures ok { OnOk result (self.new ≡ record { past = keep_last n self.old.past; future = []; depth = n }) }
        ensures err { OnErr result (self.new ≡ self.old) }
        ensures held { (v : Versions) → IsHistoryOf v self.old → IsHistoryOf v self.new }
    {
        let rings = Rings::new(alloc, n)?;
        self.move_to(rings);
        Ok(())
    }

    /// Moves into other rings: the newest versions of the past that they hold stay, and nothing is left to redo.
    pub fn move_to(&mut self, rings: Rings)
        ensures moved { self.new ≡ record { past = keep_last rings self.old.past; future = []; depth = rings } }
        ensures held { (v : Versions) → IsHistoryOf v self.old → IsHistoryOf v self.new }
    {
        let Rings {
            mut past,
            future,
            depth,
        } = rings;
        let (front, back) = self.past.as_slices();
        past.extend_from_slice(front);
        past.extend_from_slice(back);
        self.past = past;
        self.future = future;
        self.depth = depth;
    }
}
