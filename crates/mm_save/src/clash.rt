//! Variables that a proof puts together though they must differ.

use mm_scope::Sym;

/// Two variables that the values of a step put together though they must differ: they are one, or no `$d` parts them. The
/// step is told by its number, counted from 1.
#[derive(Clone, Copy, Debug, PartialEq, Eq)]
pub struct Clash {
    pub step: u32,
    pub first: Sym,
    pub second: Sym,
}
