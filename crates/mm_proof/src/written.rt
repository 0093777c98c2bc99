//! Steps as a compressed proof writes them.

/// A step as a compressed proof writes it: a label's number, which is one more than the id of its statement; `?`; or the
/// tree of an earlier step, by the place of that step, counted from 0.
#[derive(Clone, Copy)]
pub enum Step {
    /// A statement.
    Label(u64),
    /// `?`.
    Unknown,
    /// An earlier step.
    Back(u64),
}
