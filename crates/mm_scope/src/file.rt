//! Reading a whole file.

ghost use Rattle.std.specs.Prelude.{◌+◌, ◌≡◌, ◌≤◌, ◌<◌, IfSome, length, position};
ghost use Rattle.mm_tokens.specs.Bytes.{is_bad};
ghost use Rattle.mm_scope.specs.ByTables.{tables_of, at_end_of_file, at_the_end};
ghost use Rattle.mm_scope.specs.Contexts.{GivesReader, state_of};
ghost use Rattle.mm_scope.specs.Judged.{judged, clean};

use crate::fault::ReadFault;
use crate::mode::Mode;
use crate::reader::Reader;
use crate::reading::{new_reader, read_pieces};
use mm_tokens::bad_byte;
use std::alloc::Global;

/// The longest database, in bytes.
pub const MOST_BYTES: usize = 134_217_728;

/// The bytes that are judged.
fn judged(bytes: &[u8]) -> &[u8]
    ensures value { result.now ≡ judged bytes.now }
    ensures small { length result.now ≤ MOST_BYTES + 1 }
{
    if bytes.len() > MOST_BYTES {
        &bytes[..MOST_BYTES + 1]
    } else {
        bytes
    }
}

/// What stands before the first bad byte, whose place is given.
#[tactic(auto, using(crate::proofs::Closing::take_length))]
fn clean(bytes: &[u8], bad: Option<usize>) -> &[u8]
    requires own { bad ≡ position is_bad bytes.now }
    requires within { IfSome bad (λ place. place < length bytes.now) }
    ensures value { result.now ≡ clean bytes.now }
    ensures small { length result.now ≤ length bytes.now }
{
    match bad {
        Some(place) => &bytes[..place],
        None => bytes,
    }
}

/// The end of the file.
fn at_end_of_file(reader: Reader) -> Result<Reader, ReadFault>
    ensures { GivesReader result (at_end_of_file (state_of reader)) }
{
    match reader.blocks.last() {
        Some(block) => Err(ReadFault::BlockOpen(block.place)),
        None => match reader.mode {
            Mode::Start => Ok(reader),
            _ => Err(ReadFault::NotClosed(reader.begun)),
        },
    }
}

/// The end of what was read: a bad byte, a byte too many, an open comment or the end of the file.
fn at_the_end(
    reader: Reader,
    bad: Option<usize>,
    is_long: bool,
    unclosed: Option<u64>,
) -> Result<Reader, ReadFault>
    ensures { GivesReader result (at_the_end (state_of reader) bad is_long unclosed) }
{
    if let Some(place) = bad {
        return Err(ReadFault::BadByte(place as u64));
    }
    if is_long {
        return Err(ReadFault::TooLong(MOST_BYTES as u64));
    }
    match unclosed {
        Some(place) => Err(ReadFault::CommentOpen(place)),
        None => at_end_of_file(reader),
    }
}

/// What the bytes say, or the first fault.
#[tactic(auto, unfolding(crate::specs::ByTables::tables_of))]
pub fn read_file(alloc: Global, bytes: &[u8]) -> Result<Reader, ReadFault>
    ensures { GivesReader result (tables_of bytes.now) }
{
    let judged = judged(bytes);
    let bad = bad_byte(judged);
    let mut reader = new_reader(alloc);
    match read_pieces(alloc, clean(judged, bad), &mut reader) {
        Ok(unclosed) => at_the_end(reader, bad, bytes.len() > MOST_BYTES, unclosed),
        Err(fault) => Err(fault),
    }
}
