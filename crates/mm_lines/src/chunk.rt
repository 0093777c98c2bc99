ghost use Rattle.std.specs.Prelude.{◌≡◌, ◌<◌, ◌≤◌, [], IfOk, OnErr, IsTrue, length, drop, is_err};
ghost use Rattle.mm_base.specs.Outside.{CountsFaults};
ghost use Rattle.mm_base.specs.Source.{Gives, filled};
ghost use Rattle.mm_lines.specs.Limits.{chunk_size};

use mm_base::{Failed, Memory, Source};
use std::alloc::Global;
use std::marker::Model;

// How many bytes are asked of the source at once.
const CHUNK_SIZE: usize = 65_536;

// The bytes of the last read, of which the first may be used already. It is seen as those that aren't.
#[derive(Debug, Drop)]
pub struct Chunk {
    bytes: Vec<u8>,
    from: usize,
    to: usize,
}

impl Model for Chunk {
    ghost use Rattle.std.specs.Prelude.{◌≡◌, ◌≤◌, List, ℕ, take, drop, vec_len};
    ghost use Rattle.mm_lines.specs.Limits.{chunk_size};

    ghost Value = { List ℕ };

    ghost view = { λ c. drop c.from (take c.to c.bytes.items) };

    ghost invariant = { λ c. (vec_len c.bytes ≡ chunk_size) × (c.to ≤ chunk_size) × (c.from ≤ c.to) };
}

impl Chunk {
    pub fn new(alloc: Global) -> Result<Chunk, Memory>
        ensures { IfOk result (λ c. c ≡ []) }
    {
        Ok(Chunk {
            bytes: vec![in alloc; 0; CHUNK_SIZE]?,
            from: 0,
            to: 0,
        })
    }

    // The bytes that aren't used yet.
    pub fn rest(&self) -> &[u8]
        ensures rest { result.now ≡ self.now }
        ensures few { length result.now ≤ chunk_size }
    {
        let (front, _) = self.bytes.split_at(self.to);
        let (_, rest) = front.split_at(self.from);
        rest
    }

    // Uses the first bytes.
    pub fn skip(&mut self, count: usize)
        requires { count ≤ length self.old }
        ensures { self.new ≡ drop count self.old }
    {
        self.from += count;
    }

    // Takes bytes from the source, `most` at most, in place of those that are here. None are the end.
    pub fn fill<S: Source>(&mut self, source: &mut S, most: u64) -> Result<u64, Failed>
        requires { 0 < most }
        ensures count { IfOk result (λ n. n ≡ length self.new) }
        ensures within { IfOk result (λ n. n ≤ most) }
        ensures few { length self.new ≤ chunk_size }
        ensures err { OnErr result (self.new ≡ []) }
        ensures given { Gives S.tells S.left source.old source.new self.new }
        ensures end { IfOk result (λ n. n ≡ 0 → IsTrue (S.tells source.new) → S.left source.old ≡ []) }
        ensures cause { CountsFaults (is_err result) (S.faults source.old) (S.faults source.new) }
    {
        self.from = 0;
        self.to = 0;
        let room = most.min(CHUNK_SIZE as u64) as usize;
        let count = read_front(source, &mut self.bytes, room)?;
        self.to = count;
        Ok(count as u64)
    }
}

// Reads into the front of the buffer, `room` bytes at most.
fn read_front<S: Source>(source: &mut S, buf: &mut [u8], room: usize) -> Result<usize, Failed>
    requires some { 0 < room }
    requires room { room ≤ length buf.old }
    ensures within { IfOk result (λ n. n ≤ room) }
    ensures given { Gives S.tells S.left source.old source.new (filled result buf.new) }
    ensures end { IfOk result (λ n. n ≡ 0 → IsTrue (S.tells source.new) → S.left source.old ≡ []) }
    ensures cause { CountsFaults (is_err result) (S.faults source.old) (S.faults source.new) }
{
    let (front, _) = buf.split_at_mut(room);
    source.read(front)
}
