//! Which entry gives a variable its value.

ghost use Rattle.std.specs.Prelude.{◌≡◌, ℕ, ◌-◌, ◌==◌, ◌++◌, None, Some, length, replicate, slice_index_or, OnOk, OnErr, if◌then◌else◌};

use std::alloc::{AllocError, Global};
use std::marker::Model;

/// Where a symbol's value stood in some turn.
#[derive(Clone, Copy, Debug, PartialEq, Eq)]
struct Seat {
    turn: u64,
    entry: usize,
}

/// Adds seats of no turn, up to this many seats at least.
fn make_room(seats: &mut Vec<Seat>, count: usize) -> Result<(), AllocError>
    ensures ok { OnOk result (seats.new.items ≡ seats.old.items ++ replicate (count - length seats.old.items) (record { turn = 0; entry = 0 })) }
    ensures err { OnErr result (seats.new.items ≡ seats.old.items) }
{
    if count > seats.len() {
        seats.resize(count, Seat { turn: 0, entry: 0 })?;
    }
    Ok(())
}

/// A table over symbols, seen as the list of the entries that give them their values: by symbol number, as far as it goes.
/// Each turn begins with none.
#[derive(Drop)]
pub struct Values {
    turn: u64,
    seats: Vec<Seat>,
}

impl Model for Values {
    ghost use Rattle.std.specs.Prelude.{List, Option, ℕ, map, All, ◌≤◌};

    ghost Value = { List (Option ℕ) };

    ghost use Rattle.mm_stack.specs.Seats.{seated_in, IsTurn};

    ghost view = { λ v. map (seated_in v.turn) v.seats.items };

    ghost invariant = { λ v. IsTurn v.turn v.seats.items };
}

impl Values {
    /// No symbol has a value. It takes no memory.
    pub fn new(alloc: Global) -> Values
        ensures { (s : ℕ) → slice_index_or result s None ≡ None }
    {
        Values {
            turn: 1,
            seats: Vec::new(alloc),
        }
    }

    /// Takes all values away.
    pub fn clear(&mut self)
        ensures { (s : ℕ) → slice_index_or self.new s None ≡ None }
    {
        match self.turn.checked_add(1) {
            Some(turn) => self.turn = turn,
            None => {
                self.seats.clear();
                self.turn = 1;
            }
        }
    }

    /// The number of the entry that gives the symbol its value.
    pub fn get(&self, symbol: u32) -> Option<usize>
        ensures { result ≡ slice_index_or self.now symbol None }
    {
        match self.seats.get(symbol as usize) {
            Some(seat) if seat.turn == self.turn => Some(seat.entry),
            _ => None,
        }
    }

    /// Lets this entry give the symbol its value.
    pub fn set(&mut self, symbol: u32, entry: usize) -> Result<(), AllocError>
        ensures { OnOk result ((s : ℕ) → slice_index_or self.new s None ≡ (if s == symbol then Some entry else slice_index_or self.old s None)) }
    {
        let place = symbol as usize;
        make_room(&mut self.seats, place + 1)?;
        self.seats[place] = Seat {
            turn: self.turn,
            entry,
        };
        Ok(())
    }
}
