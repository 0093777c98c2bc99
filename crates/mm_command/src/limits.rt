//! The limits of lines and of the numbers in them.

/// How many bytes a line may have.
pub const MOST_LINE: usize = 65_536;

/// The greatest number of a work variable.
pub const MOST_WORK: u64 = 4_000_000_000;

/// The greatest depth of SET UNDO.
pub const MOST_UNDO: u32 = 1_000;

/// The greatest number of SET UNIFICATION_TIMEOUT.
pub const MOST_TRIALS: u32 = 10_000_000;

/// The greatest number of DEMO.
pub const MOST_DEMO: u32 = 1_000;

/// The greatest number of /CHOICE.
pub const MOST_CHOICE: u32 = 4_294_967_295;

/// The greatest number of /DEPTH.
pub const MOST_DEPTH: u32 = 100;
