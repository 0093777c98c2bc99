ghost use Rattle.std.specs.Prelude.{◌≡◌, ◌≤◌, ◌+◌, ◌++◌, [], List, Bool, true, false, All, IfOk, IfErr, vec_len, vec_capacity};
ghost use Rattle.mm_base.specs.Recorder.{CallsEach, HasHeard, HasFailed, begun_with, heard_where, logs_after, begun_before, begun_after};

use crate::Memory;
use crate::recorder::Recorder;
use std::alloc::Global;

/// The recorders that are handed to a session: those that are live, and those that have failed.
///
/// It must be ready at each call: a log is begun on each live recorder where one is open, and on none where none is.
#[derive(Drop)]
pub struct Recorders {
    /// Those that have not failed, in the order in which they were handed in.
    pub live: Vec<Box<dyn Recorder>>,
    /// Those that have failed, in the order in which they did.
    pub lost: Vec<Box<dyn Recorder>>,
    /// Whether a log is open.
    pub begun: bool,
    pub ghost room: { vec_len live + vec_len lost ≤ vec_capacity lost },
}

impl Recorders {
    /// These are live, and no log is open. Where there is no memory, it hands them back.
    ///
    /// It takes room for all of them to be lost, so that a loss takes no memory.
    pub fn new(
        alloc: Global,
        live: Vec<Box<dyn Recorder>>,
    ) -> Result<Recorders, (Vec<Box<dyn Recorder>>, Memory)>
        requires { All (λ r. is_begun r ≡ false) live.items }
        ensures live { IfOk result (λ r. r.live ≡ live) }
        ensures lost { IfOk result (λ r. r.lost.items ≡ []) }
        ensures closed { IfOk result (λ r. r.begun ≡ false) }
        ensures back { IfErr result (λ e. e.0 ≡ live) }
    {
        match Vec::with_capacity(alloc, live.len()) {
            Ok(lost) => Ok(Recorders {
                live,
                lost,
                begun: false,
            }),
            Err(e) => Err((live, e)),
        }
    }

    /// Whether a log is open, even where all recorders are lost.
    pub fn is_open(&self) -> bool
        ensures { result ≡ self.now.begun }
    {
        self.begun
    }

    /// Opens a log of this name: it begins one on each live recorder, in order. This takes no memory.
    ///
    /// A recorder that fails goes to the end of the lost ones.
    pub fn open_all(&mut self, name: &[u8])
        requires closed { self.old.begun ≡ false }
        requires ready { All (λ r. is_begun r ≡ false) self.old.live.items }
        ensures opened { self.new.begun ≡ true }
        ensures ready { All (λ r. is_begun r ≡ true) self.new.live.items }
        ensures split { CallsEach (λ r. tells r) (λ r. logs r) (λ r. faults r) (begun_with name.now) self.old.live.items self.old.lost.items self.new.live.items self.new.lost.items }
    {
        call_each(&mut self.live, &mut self.lost, Call::Begin(name));
        self.begun = true;
    }

    /// Lets each live recorder hear the piece, where a log is open. This takes no memory.
    pub fn hear(&mut self, piece: &[u8])
        requires { All (λ r. is_begun r ≡ self.old.begun) self.old.live.items }
        ensures same { self.new.begun ≡ self.old.begun }
        ensures ready { All (λ r. is_begun r ≡ self.new.begun) self.new.live.items }
        ensures split { CallsEach (λ r. tells r) (λ r. logs r) (λ r. faults r) (heard_where self.old.begun piece.now) self.old.live.items self.old.lost.items self.new.live.items self.new.lost.items }
        ensures nothing { self.old.begun ≡ false → self.new ≡ self.old }
    {
        if self.begun {
            call_each(&mut self.live, &mut self.lost, Call::Hear(piece));
        }
    }

    /// Closes the log, where one is open: it ends it on each live recorder. This takes no memory.
    pub fn close_all(&mut self)
        requires { All (λ r. is_begun r ≡ self.old.begun) self.old.live.items }
        ensures closed { self.new.begun ≡ false }
        ensures ready { All (λ r. is_begun r ≡ false) self.new.live.items }
        ensures split { CallsEach (λ r. tells r) (λ r. logs r) (λ r. faults r) (λ ls. ls) self.old.live.items self.old.lost.items self.new.live.items self.new.lost.items }
        ensures nothing { self.old.begun ≡ false → self.new ≡ self.old }
    {
        if self.begun {
            call_each(&mut self.live, &mut self.lost, Call::Finish);
            self.begun = false;
        }
    }
}

// A call that is made on each recorder.
#[derive(Clone, Copy)]
enum Call<'a> {
    Begin(&'a [u8]),
    Hear(&'a [u8]),
    Finish,
}

// Makes the call on a recorder, and says whether it stays live.
fn make_call(recorder: &mut Box<dyn Recorder>, call: Call<'_>) -> bool
    requires { is_begun recorder.old ≡ begun_before call }
    ensures begun { result ≡ true → is_begun recorder.new ≡ begun_after call.entry }
    ensures stays { result ≡ true → HasHeard (λ r. tells r) (λ r. logs r) (λ r. faults r) (logs_after call.entry) recorder.old recorder.new }
    ensures lost { result ≡ false → HasFailed (λ r. tells r) (λ r. logs r) (λ r. faults r) (logs_after call.entry) recorder.old recorder.new }
{
    match call {
        Call::Begin(name) => recorder.begin(name).is_ok(),
        Call::Hear(piece) => recorder.hear(piece).is_ok(),
        Call::Finish => recorder.finish().is_ok(),
    }
}

// Makes the call on each live recorder. One that fails is lost.
fn call_each(live: &mut Vec<Box<dyn Recorder>>, lost: &mut Vec<Box<dyn Recorder>>, call: Call<'_>)
    requires begun { All (λ r. is_begun r ≡ begun_before call) live.old.items }
    requires room { vec_len live.old + vec_len lost.old ≤ vec_capacity lost.old }
    ensures begun { All (λ r. is_begun r ≡ begun_after call.entry) live.new.items }
    ensures room { vec_len live.new + vec_len lost.new ≤ vec_capacity lost.new }
    ensures split { CallsEach (λ r. tells r) (λ r. logs r) (λ r. faults r) (logs_after call.entry) live.old.items lost.old.items live.new.items lost.new.items }
{
    let mut i = 0;
    while i < live.len() {
        if make_call(&mut live[i], call) {
            i += 1;
        } else {
            let recorder = live.remove(i);
            lost.push_reserved(recorder);
        }
    }
}
