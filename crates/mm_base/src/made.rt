ghost use Rattle.std.specs.Prelude.{◌≡◌, ◌+◌, ◌<◌};

use std::marker::Model;
use std::sync::ledger::{Blank, Book, Ledger, Share};

/// A count of the nodes that were made, seen as that number.
///
/// It takes no bytes, and only `Made::new` raises it.
#[derive(Drop)]
pub struct Steps<L: Ledger> {
    book: Book<L>,
    share: Share<L>,
}

impl<L: Ledger> Model for Steps<L> {
    ghost use Rattle.std.specs.Prelude.{ℕ, ◌<◌};

    ghost Value = { ℕ };

    ghost view = { λ s. s.book.total };

    ghost invariant = { λ s. 0 < s.share.parts };
}

impl<L: Ledger> Steps<L> {
    /// A count that begins at 0, in a ledger of its own.
    pub fn new(blank: Blank) -> Steps<L>
        requires name { blank.name ≡ L.name }
        requires parts { blank.parts ≡ L.parts }
        requires some { 0 < L.parts }
        ensures { result ≡ 0 }
    {
        let (book, share) = blank.open();
        Steps { book, share }
    }

    // Counts one more.
    fn tick(&mut self)
        ensures { self.new ≡ self.old + 1 }
    {
        self.book.add(&mut self.share, 1);
    }
}

/// What each node holds, so that none is made without being counted.
///
/// It takes no bytes.
#[derive(Debug, Drop)]
pub struct Made {
    counted: (),
}

impl Made {
    /// Counts one node more. This takes no memory.
    pub fn new<L: Ledger>(steps: &mut Steps<L>) -> Made
        ensures { steps.new ≡ steps.old + 1 }
    {
        steps.tick();
        Made { counted: () }
    }
}
