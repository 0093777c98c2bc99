//! Symbols of strings.

ghost use Rattle.std.specs.Prelude.{◌≡◌};
ghost use Rattle.mm_subst.specs.Symbols.{is_same, is_work};

/// A symbol of a string: a constant or a variable of a database, by its number there, or a work variable, which stands
/// for a string that is not found yet.
#[derive(Clone, Copy, Debug, PartialEq, Eq, PartialOrd, Ord)]
pub enum WSym {
    Const(u32),
    Var(u32),
    Work(u32),
}

impl WSym {
    /// Whether two symbols are the same.
    pub fn is_same(self, other: WSym) -> bool
        ensures { result ≡ is_same self other }
    {
        match (self, other) {
            (WSym::Const(m), WSym::Const(n)) => m == n,
            (WSym::Var(m), WSym::Var(n)) => m == n,
            (WSym::Work(m), WSym::Work(n)) => m == n,
            _ => false,
        }
    }

    /// Whether a symbol is a work variable.
    pub fn is_work(self) -> bool
        ensures { result ≡ is_work self }
    {
        match self {
            WSym::Work(_) => true,
            _ => false,
        }
    }
}
