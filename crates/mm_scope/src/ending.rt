//! What ends with a block.

/// What a block's end takes back: that a variable is active, or that it has an active `$f`.
#[derive(Clone, Copy, Debug, PartialEq, Eq)]
pub enum Ending {
    Active(u32),
    Floated(u32),
}

/// An open block: where it began, and how many endings and active hypotheses there were.
#[derive(Clone, Copy, Debug, PartialEq, Eq)]
pub struct Block {
    pub place: u64,
    pub endings: usize,
    pub hypotheses: usize,
}
