//! The maximal runs of token bytes.

ghost use Rattle.std.specs.Prelude.{◌≡◌, ◌≤◌, ◌<◌, ℕ, true, false, length, slice_index, IfSome, IfNone};
ghost use Rattle.mm_tokens.specs.Bytes.{is_graphic};
ghost use Rattle.mm_tokens.specs.Runs.{run_end, is_mark, is_closing};

use crate::bytes::is_graphic;

/// The first place from `at` on where a token byte stands; the length if there is none.
pub(crate) fn first_graphic(bytes: &[u8], at: usize) -> usize
    requires { at ≤ length bytes.now }
    ensures low { at ≤ result }
    ensures within { result ≤ length bytes.now }
    ensures none { (k : ℕ) → at ≤ k → k < result → is_graphic (slice_index bytes.now k) ≡ false }
    ensures graphic { result < length bytes.now → is_graphic (slice_index bytes.now result) ≡ true }
{
    let mut place = at;
    while place < bytes.len() && !is_graphic(bytes[place]) {
        place += 1;
    }
    place
}

/// The place after the run of token bytes that goes on at `start`.
pub(crate) fn run_end(bytes: &[u8], start: usize) -> usize
    requires { start ≤ length bytes.now }
    ensures end { result ≡ run_end bytes.now start }
    ensures low { start ≤ result }
    ensures within { result ≤ length bytes.now }
    ensures graphic { (k : ℕ) → start ≤ k → k < result → is_graphic (slice_index bytes.now k) ≡ true }
    ensures stops { is_graphic (slice_index bytes.now result) ≡ false }
{
    let mut end = start;
    while end < bytes.len() && is_graphic(bytes[end]) {
        end += 1;
    }
    end
}

/// Whether the run is exactly `$(`.
pub(crate) fn opens(bytes: &[u8], start: usize, end: usize) -> bool
    requires low { start ≤ end }
    requires within { end ≤ length bytes.now }
    ensures { result ≡ is_mark bytes.now 40 (record { start = start; end = end }) }
{
    end - start == 2 && bytes[start] == b'$' && bytes[start + 1] == b'('
}

/// Whether a token byte stands at `place`.
fn continues(bytes: &[u8], place: usize) -> bool
    ensures { result ≡ is_graphic (slice_index bytes.now place) }
{
    match bytes.get(place) {
        Some(byte) => is_graphic(*byte),
        None => false,
    }
}

/// Whether a run that is exactly `$)` starts at `place`.
fn closes(bytes: &[u8], place: usize) -> bool
    requires { place < length bytes.now }
    ensures { result ≡ is_closing bytes.now place }
{
    bytes.len() - place >= 2
        && bytes[place] == b'$'
        && bytes[place + 1] == b')'
        && (place == 0 || !continues(bytes, place - 1))
        && !continues(bytes, place + 2)
}

/// The first place from `from` on where `$` stands. No run that is exactly `$)` starts between the two.
fn next_dollar(bytes: &[u8], from: usize) -> Option<usize>
    requires { from ≤ length bytes.now }
    ensures dollar { IfSome result (λ place. slice_index bytes.now place ≡ 36) }
    ensures low { IfSome result (λ place. from ≤ place) }
    ensures within { IfSome result (λ place. place < length bytes.now) }
    ensures before { IfSome result (λ place. (k : ℕ) → from ≤ k → k < place → is_closing bytes.now k ≡ false) }
    ensures none { IfNone result ((k : ℕ) → from ≤ k → k < length bytes.now → is_closing bytes.now k ≡ false) }
{
    let skip = memchr::memchr(b'$', &bytes[from..])?;
    Some(from + skip)
}

/// The first place from `from` on where a run starts that is exactly `$)`.
pub(crate) fn closing(bytes: &[u8], from: usize) -> Option<usize>
    requires { from ≤ length bytes.now }
    ensures some { IfSome result (λ place. is_closing bytes.now place ≡ true) }
    ensures low { IfSome result (λ place. from ≤ place) }
    ensures before { IfSome result (λ place. (k : ℕ) → from ≤ k → k < place → is_closing bytes.now k ≡ false) }
    ensures none { IfNone result ((k : ℕ) → from ≤ k → k < length bytes.now → is_closing bytes.now k ≡ false) }
{
    let mut at = from;
    while let Some(place) = next_dollar(bytes, at) {
        if closes(bytes, place) {
            return Some(place);
        }
        at = place + 1;
    }
    None
}
