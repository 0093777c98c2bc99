//! Pairs of variables.

use std::marker::Model;

/// Two variables, by their symbols' numbers.
#[derive(Clone, Copy, Debug, PartialEq, Eq)]
pub struct Pair {
    pub first: u32,
    pub second: u32,
}

impl Model for Pair {
    ghost use Rattle.std.specs.Prelude.{ℕ};

    ghost Value = { ℕ × ℕ };

    ghost view = { λ p. (p.first, p.second) };

    ghost inverse = { λ p. record { first = p.0; second = p.1 } };
}
