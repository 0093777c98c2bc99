//! Conclusions of plain assertions as what is searched for.

use mm_subst::{Brackets, WSym};
use mm_tables::Parted;
use std::marker::Model;

/// What stands at a place of a conclusion.
#[derive(Clone, Copy, Debug)]
pub enum Item {
    /// A symbol that stands for itself.
    Fixed(WSym),
    /// A variable that occurred before, by the number of variables before it.
    Again(usize),
    /// The first occurrence of a variable, with its typecode.
    New(WSym),
}

/// A plain assertion: its id, and its conclusion behind the typecode.
#[derive(Debug, Drop)]
pub struct Pattern {
    pub id: u32,
    pub code: WSym,
    pub items: Vec<Item>,
    /// The variables of its distinct pairs, as in `Item::Again`.
    pub apart: Vec<(usize, usize)>,
}

impl Model for Pattern {
    ghost use Rattle.mm_chart.specs.Items.{Assertion};

    ghost Value = { Assertion };

    ghost view = { λ p. record { id = p.id; code = p.code; items = p.items.items; apart = p.apart.items } };
}

/// An active hypothesis: its id, its typecode, and the string behind it.
#[derive(Debug, Drop)]
pub struct Hypothesis {
    pub id: u32,
    pub code: WSym,
    pub symbols: Vec<WSym>,
}

impl Model for Hypothesis {
    ghost use Rattle.mm_chart.specs.Items.{Hypothesis};

    ghost Value = { Hypothesis };

    ghost view = { λ h. record { id = h.id; goal = (h.code, h.symbols.items) } };
}

/// Active hypotheses and plain assertions in the order of the database, the brackets that are heeded, and what must
/// differ at the theorem.
#[derive(Drop)]
pub struct Rules {
    pub hypotheses: Vec<Hypothesis>,
    pub assertions: Vec<Pattern>,
    pub brackets: Option<Brackets>,
    pub groups: Parted,
}

impl Model for Rules {
    ghost use Rattle.mm_chart.specs.Items.{Grammar};

    ghost Value = { Grammar };

    ghost view = { λ g. record { hypotheses = g.hypotheses.items; assertions = g.assertions.items; brackets = g.brackets; groups = g.groups } };
}
