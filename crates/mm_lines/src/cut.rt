ghost use Rattle.std.specs.Prelude.{◌≡◌, ◌<◌, ◌≤◌, ◌+◌, [], IfSome, IfNone, length, take, drop};
ghost use Rattle.mm_lines.specs.Limits.{chunk_size};
ghost use Rattle.mm_lines.specs.Lines.{kept};
ghost use Rattle.mm_lines.specs.Parts.{IsFree, Splits, MovesTo, line_of, without_cr};

use crate::chunk::Chunk;
use crate::front::Front;

// How many bytes of a line are kept at most.
const MOST_KEPT: usize = 65_537;

// Moves the bytes of the chunk up to its first LF behind those of the line that is begun, or all
// where it has none, and says whether it has one.
pub fn move_to_lf(chunk: &mut Chunk, begun: &mut Front) -> bool
    ensures moves { MovesTo chunk.old begun.old result chunk.new begun.new }
    ensures few { length chunk.new ≤ chunk_size }
{
    let rest = chunk.rest();
    match find_lf(rest) {
        Some(at) => {
            let (piece, _) = rest.split_at(at);
            begun.add(piece);
            chunk.skip(at + 1);
            true
        }
        None => {
            let count = rest.len();
            begun.add(rest);
            chunk.skip(count);
            false
        }
    }
}

// Where the first LF stands.
fn find_lf(bytes: &[u8]) -> Option<usize>
    ensures found { IfSome result (λ at. Splits bytes.now (take at bytes.now) (drop (at + 1) bytes.now)) }
    ensures within { IfSome result (λ at. at < length bytes.now) }
    ensures none { IfNone result (IsFree bytes.now) }
{
    memchr::memchr(b'\n', bytes)
}

// Gives the line that is begun, with an LF behind it or not, and begins anew.
pub fn give(begun: &mut Front, line: &mut Front, has_lf: bool)
    ensures line { line.new ≡ kept (line_of has_lf begun.old) }
    ensures anew { begun.new ≡ [] }
{
    line.clear();
    line.add(cut(begun.bytes(), has_lf));
    begun.clear();
}

// What is kept of a line of which these are the first bytes.
fn cut(bytes: &[u8], has_lf: bool) -> &[u8]
    ensures { result.now ≡ kept (line_of has_lf bytes.now) }
{
    let line = line_of(bytes, has_lf);
    let (line, _) = line.split_at(line.len().min(MOST_KEPT));
    line
}

// The line without what ends it.
fn line_of(bytes: &[u8], has_lf: bool) -> &[u8]
    ensures { result.now ≡ line_of has_lf bytes.now }
{
    if has_lf { without_cr(bytes) } else { bytes }
}

// Without one CR at the end.
fn without_cr(bytes: &[u8]) -> &[u8]
    ensures { result.now ≡ without_cr bytes.now }
{
    match bytes.strip_suffix(b"\r") {
        Some(front) => front,
        None => bytes,
    }
}
