ghost use Rattle.std.specs.Prelude.{◌≡◌, [], false};
ghost use Rattle.mm_shell.specs.Changes.{new_state};

use arrayvec::ArrayVec;
use mm_shell::State;

/// How far a session has come.
#[derive(Drop)]
pub struct Run {
    pub state: State,
    /// How many commands were run.
    pub lines: u64,
    /// Whether a command was refused.
    pub refused: bool,
    /// The numbers of the commands that found no memory.
    pub starved: ArrayVec<u64, 64>,
    /// The numbers of the commands whose call on the files failed.
    pub faulted: ArrayVec<u64, 64>,
}

impl Run {
    /// Nothing has been run.
    pub fn new() -> Run
        ensures state { result.state ≡ new_state }
        ensures lines { result.lines ≡ 0 }
        ensures refused { result.refused ≡ false }
        ensures starved { result.starved.items ≡ [] }
        ensures faulted { result.faulted.items ≡ [] }
    {
        Run {
            state: State::new(),
            lines: 0,
            refused: false,
            starved: ArrayVec::new(),
            faulted: ArrayVec::new(),
        }
    }
}
