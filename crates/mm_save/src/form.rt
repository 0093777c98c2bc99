//! The forms of a proof's text.

/// A form of a proof's text.
#[derive(Clone, Copy, Debug, PartialEq, Eq)]
pub enum Form {
    /// A label for each step, in postorder.
    Normal,
    /// A list of labels, and letters that number the steps.
    Compressed,
}
