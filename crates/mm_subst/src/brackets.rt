//! Balanced strings.

ghost use Rattle.std.specs.Prelude.{◌≡◌};
ghost use Rattle.mm_subst.specs.Brackets.{number_of, bracket_of, brackets_of, has_number, is_balanced_by, are_balanced, is_balanced};

use crate::string::WStr;
use crate::symbol::WSym;
use mm_scope::Database;

/// A pair of brackets, by the numbers of their symbols in a database; `None` where the database has no such symbol.
#[derive(Clone, Copy, Debug, PartialEq, Eq)]
pub struct Bracket {
    pub opening: Option<u32>,
    pub closing: Option<u32>,
}

/// The pairs `( )`, `{ }` and `[ ]` of a database.
#[derive(Clone, Copy, Debug, PartialEq, Eq)]
pub struct Brackets {
    pub round: Bracket,
    pub curly: Bracket,
    pub square: Bracket,
}

/// The number of the symbol with a text; `None` where no symbol has it.
fn number_of(db: &Database, text: &[u8]) -> Option<u32>
    ensures { result ≡ number_of db.now text.now }
{
    db.symbol_with(text).map(|symbol| symbol.0)
}

fn has_number(number: Option<u32>, symbol: WSym) -> bool
    ensures { result ≡ has_number number symbol }
{
    match (number, symbol) {
        (Some(n), WSym::Const(m) | WSym::Var(m)) => m == n,
        _ => false,
    }
}

impl Bracket {
    fn of(db: &Database, opening: &[u8], closing: &[u8]) -> Bracket
        ensures { result ≡ bracket_of db.now opening.now closing.now }
    {
        Bracket {
            opening: number_of(db, opening),
            closing: number_of(db, closing),
        }
    }

    /// Whether no prefix closes more than it opens, and the whole closes as many as it opens.
    fn is_balanced(&self, symbols: &[WSym]) -> bool
        ensures { result ≡ is_balanced_by self.now symbols.now }
    {
        let mut open: usize = 0;
        for symbol in symbols {
            if has_number(self.opening, *symbol) {
                open += 1;
            }
            if has_number(self.closing, *symbol) {
                if open == 0 {
                    return false;
                }
                open -= 1;
            }
        }
        open == 0
    }
}

impl Brackets {
    /// The pairs of a database.
    pub fn of(db: &Database) -> Brackets
        ensures { result ≡ brackets_of db.now }
    {
        Brackets {
            round: Bracket::of(db, b"(", b")"),
            curly: Bracket::of(db, b"{", b"}"),
            square: Bracket::of(db, b"[", b"]"),
        }
    }

    /// Whether a string is balanced in each pair by itself.
    pub fn are_balanced(&self, s: &WStr) -> bool
        ensures { result ≡ are_balanced self.now s.now }
    {
        let symbols = s.symbols();
        self.round.is_balanced(symbols)
            && self.curly.is_balanced(symbols)
            && self.square.is_balanced(symbols)
    }
}

/// Whether a string is balanced: for each of `( )`, `{ }` and `[ ]` by itself, no prefix has more closing than opening
/// symbols, and the whole has as many of each. To ask about several strings make the `Brackets` once.
pub fn balanced(db: &Database, s: &WStr) -> bool
    ensures { result ≡ is_balanced db.now s.now }
{
    Brackets::of(db).are_balanced(s)
}
