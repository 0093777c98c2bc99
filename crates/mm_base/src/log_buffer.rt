ghost use Rattle.std.specs.Prelude.{◌≡◌, ◌<◌, ◌≤◌, ◌+◌, ◌++◌, [], true, false, IfOk, length, nat_le, option_map, slice_get, vec_capacity, vec_len};
ghost use Rattle.mm_base.specs.Places.{AreInOrder, end_at, logs_in};
ghost use Rattle.mm_base.specs.Memory.{has_room_for_log, has_room_for_piece, kept_begun, kept_heard};
ghost use Rattle.mm_base.specs.Recorder.{Log, log_at};

use crate::Memory;
use std::alloc::Global;
use std::marker::Model;

// Where a log's name and its bytes begin. It ends where the next one begins.
#[derive(Clone, Copy, Debug, Drop)]
struct Place {
    name: usize,
    bytes: usize,
}

// Room for logs: what would pass it is dropped, and from then on they are no longer told.
#[derive(Debug, Drop)]
pub struct LogBuffer {
    text: Vec<u8>,
    places: Vec<Place>,
    pairs: u64,
    room: u64,
    told: bool,
}

impl Model for LogBuffer {
    ghost use Rattle.mm_base.specs.Memory.{KeptLogs};

    ghost Value = { KeptLogs };

    ghost use Rattle.std.specs.Prelude.{◌≤◌, vec_capacity, vec_len};
    ghost use Rattle.mm_base.specs.Places.{AreInOrder, logs_in};

    ghost view = { λ b. record { logs = logs_in b.text.items b.places.items; used = vec_len b.text; pairs = b.pairs; room = b.room; told = b.told } };

    ghost invariant = { λ b. (b.room ≤ vec_capacity b.text) × (b.pairs ≤ vec_capacity b.places) × (vec_len b.text ≤ b.room) × AreInOrder (vec_len b.text) b.places.items };
}

impl LogBuffer {
    pub fn new(alloc: Global, pairs: u64, room: u64) -> Result<LogBuffer, Memory>
        ensures { IfOk result (λ b. b ≡ record { logs = []; used = 0; pairs = pairs; room = room; told = true }) }
    {
        Ok(LogBuffer {
            text: Vec::with_capacity(alloc, room as usize)?,
            places: Vec::with_capacity(alloc, pairs as usize)?,
            pairs,
            room,
            told: true,
        })
    }

    // Begins a log, where there is room for it.
    pub fn begin(&mut self, name: &[u8])
        ensures { self.new ≡ kept_begun name.now self.old }
    {
        if self.has_room_for_log(name) {
            let here = self.text.len();
            append(&mut self.text, name);
            self.places.push_reserved(Place {
                name: here,
                bytes: here + name.len(),
            });
        } else {
            self.told = false;
        }
    }

    // Lets the last log hear the piece, where there is room for it.
    pub fn hear(&mut self, piece: &[u8])
        ensures { self.new ≡ kept_heard piece.now self.old }
    {
        if self.has_room_for_piece(piece) {
            append(&mut self.text, piece);
        } else {
            self.told = false;
        }
    }

    fn has_room_for_log(&self, name: &[u8]) -> bool
        ensures { result ≡ has_room_for_log self.now name.now }
    {
        self.told & ((self.places.len() as u64) < self.pairs) & self.has_bytes(name.len())
    }

    fn has_room_for_piece(&self, piece: &[u8]) -> bool
        ensures { result ≡ has_room_for_piece self.now piece.now }
    {
        self.told & self.has_bytes(piece.len())
    }

    // Whether there is room for so many bytes more.
    fn has_bytes(&self, count: usize) -> bool
        ensures { result ≡ nat_le (self.now.used + count) self.now.room }
    {
        count <= self.room as usize - self.text.len()
    }

    // The name of the log with this number, counted from 1.
    pub fn name_of(&self, number: u64) -> Option<&[u8]>
        ensures { option_map (λ b. b.now) result ≡ option_map (λ (l : Log). l.name) (log_at self.now.told self.now.logs number) }
    {
        if !self.told || number == 0 {
            return None;
        }
        name_in(&self.text, &self.places, number as usize - 1)
    }

    // The bytes of that log.
    pub fn heard(&self, number: u64) -> Option<&[u8]>
        ensures { option_map (λ b. b.now) result ≡ option_map (λ (l : Log). l.bytes) (log_at self.now.told self.now.logs number) }
    {
        if !self.told || number == 0 {
            return None;
        }
        heard_in(&self.text, &self.places, number as usize - 1)
    }
}

// The name of the log with this index.
fn name_in<'a>(text: &'a [u8], places: &[Place], index: usize) -> Option<&'a [u8]>
    requires { AreInOrder (length text.now) places.now }
    ensures { option_map (λ b. b.now) result ≡ option_map (λ (l : Log). l.name) (slice_get (logs_in text.now places.now) index) }
{
    if index >= places.len() {
        return None;
    }
    let place = places[index];
    Some(&text[place.name..place.bytes])
}

// The bytes of that log.
fn heard_in<'a>(text: &'a [u8], places: &[Place], index: usize) -> Option<&'a [u8]>
    requires { AreInOrder (length text.now) places.now }
    ensures { option_map (λ b. b.now) result ≡ option_map (λ (l : Log). l.bytes) (slice_get (logs_in text.now places.now) index) }
{
    if index >= places.len() {
        return None;
    }
    let end = end_of(text, places, index);
    Some(&text[places[index].bytes..end])
}

// Where that log ends.
fn end_of(text: &[u8], places: &[Place], index: usize) -> usize
    requires { index < length places.now }
    ensures { result ≡ end_at (length text.now) places.now index }
{
    if index + 1 < places.len() {
        places[index + 1].name
    } else {
        text.len()
    }
}

// Appends the bytes, for which there is room.
fn append(text: &mut Vec<u8>, bytes: &[u8])
    requires { vec_len text.old + length bytes.now ≤ vec_capacity text.old }
    ensures items { text.new.items ≡ text.old.items ++ bytes.now }
    ensures len { vec_len text.new ≡ vec_len text.old + length bytes.now }
    ensures capacity { vec_capacity text.old ≤ vec_capacity text.new }
{
    if text.extend_from_slice(bytes).is_err() {
        unreachable!()
    }
}
