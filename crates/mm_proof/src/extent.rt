//! The size of a label tree.

/// A greater number of steps or levels is told as this.
pub const MOST_TOLD: u64 = 4_000_000_000;

/// The number of steps and the height of a proof's label tree, in which each step that refers back is a copy. The height of
/// one step is 1. A number greater than `MOST_TOLD` is told as this.
#[derive(Clone, Copy, Debug, PartialEq, Eq)]
pub struct Shape {
    pub steps: u64,
    pub height: u64,
}
