ghost use Rattle.std.specs.Prelude.{◌≡◌, IfOk};
ghost use Rattle.mm_base.specs.Memory.{CountsCall};

use crate::Memory;
use std::alloc::Global;
use std::marker::Model;

// The calls of a kind in memory: how many were made, and which of them fail.
#[derive(Debug, Drop)]
pub struct Calls {
    failing: Vec<u64>,
    made: u64,
    faults: u64,
}

impl Model for Calls {
    ghost use Rattle.mm_base.specs.Memory.{CallCount};

    ghost Value = { CallCount };

    ghost view = { λ c. record { made = c.made; failing = c.failing.items; faults = c.faults } };
}

impl Calls {
    pub fn new(alloc: Global, failing: &[u64]) -> Result<Calls, Memory>
        ensures { IfOk result (λ c. c ≡ record { made = 0; failing = failing.now; faults = 0 }) }
    {
        Ok(Calls {
            failing: failing.to_vec(alloc)?,
            made: 0,
            faults: 0,
        })
    }

    // Counts a call, and says whether it fails.
    pub fn count(&mut self) -> bool
        ensures { CountsCall self.old self.new result }
    {
        if self.made == u64::MAX {
            return false;
        }
        self.made += 1;
        if self.failing.contains(&self.made) {
            self.faults = self.faults.saturating_add(1);
            return true;
        }
        false
    }
}
