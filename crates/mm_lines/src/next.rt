ghost use Rattle.std.specs.Prelude.{◌≡◌};
ghost use Rattle.mm_lines.specs.declared.next.Stopped.TheVariants.{Failed as StoppedFailed};

use mm_base::Failed;
use thiserror::Error;

/// What comes next in an input.
#[derive(Clone, Copy, Debug, PartialEq, Eq)]
pub enum Next {
    /// A line.
    Line,
    /// The end of the input.
    End,
}

/// Why it isn't known what comes next in an input.
#[derive(Clone, Copy, Debug, PartialEq, Eq, Error)]
pub enum Stopped {
    /// The source has failed.
    #[error("the input has failed")]
    Failed,
    /// As many bytes were taken as are taken at most, and a further read would be needed.
    #[error("the input is too long")]
    Spent,
}

impl From<Failed> for Stopped {
    ghost from_gives = { λ _ e. e ≡ StoppedFailed };

    fn from(_: Failed) -> Self {
        Stopped::Failed
    }
}
