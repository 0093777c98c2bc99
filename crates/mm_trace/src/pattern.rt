//! Patterns of labels.

ghost use Rattle.std.specs.Prelude.{◌≡◌};
ghost use Rattle.mm_trace.specs.Patterns.{matches};

use crate::part::{find, is_spelled};

/// Whether a pattern matches a label. Commas join parts, one of which has to stand for the label; in a part `*` stands for
/// any run of bytes, the empty one too, and `?` for one byte. No memory is taken.
pub fn matches(pattern: &[u8], label: &[u8]) -> bool
    ensures { result ≡ matches pattern.now label.now }
{
    let mut left = pattern;
    while let Some(comma) = find(b',', left) {
        if is_spelled(&left[..comma], label) {
            return true;
        }
        left = &left[comma + 1..];
    }
    is_spelled(left, label)
}
