ghost use Rattle.std.specs.Prelude.{◌≡◌, ◌++◌, ◌∷◌, ◌<◌, ◌&&◌, not, [], false, true, length, take, IfErr, OnOk, OnErr, is_err};
ghost use Rattle.mm_base.specs.Outside.{CountsFaults};
ghost use Rattle.mm_base.specs.Sink.{Gains};
ghost use Rattle.mm_step.specs.Asked.{asked_of};
ghost use Rattle.mm_step.specs.Effects.{text_of};
ghost use Rattle.mm_step.specs.Logs.{log_asked};
ghost use Rattle.mm_session.specs.Hearing.{AreReady, Hears, closing, opening, recording, telling};
ghost use Rattle.mm_session.specs.Logs.{Says};
ghost use Rattle.mm_session.specs.Output.{SaysLess};
ghost use Rattle.mm_session.specs.Session.{prompt, echo, shown};

use mm_base::{Failed, Recorder, Recorders, ShortWrite, Sink, write_all};
use mm_command::MOST_LINE;
use mm_shell::State;
use mm_step::{Reply, log_name};
use std::alloc::Global;

/// Where the transcript goes: every piece of it is said here, to the screen and then to the recorders.
///
/// The recorders must be ready at each call.
#[derive(Drop)]
pub struct Output<'a, K> {
    screen: &'a mut K,
    recorders: &'a mut Recorders,
}

impl<'a, K: Sink> Output<'a, K> {
    /// Over a screen and recorders.
    pub fn new(screen: &'a mut K, recorders: &'a mut Recorders) -> Output<'a, K>
        ensures same { result.screen.ghost_name ≡ screen.entry.ghost_name }
        ensures same_too { result.recorders.ghost_name ≡ recorders.entry.ghost_name }
        ensures screen { result.screen.now ≡ screen.old }
        ensures recorders { result.recorders.now ≡ recorders.old }
    {
        Output { screen, recorders }
    }

    /// Says a piece of the transcript. Where the screen fails, the answer has how many bytes of the piece it took, and the
    /// recorders hear those.
    pub fn say(&mut self, piece: &[u8]) -> Result<(), ShortWrite>
        requires { AreReady ⟦<dyn Recorder as Recorder>⟧ self.old.recorders.now }
        ensures same { self.new.screen.ghost_name ≡ self.old.screen.ghost_name }
        ensures same_too { self.new.recorders.ghost_name ≡ self.old.recorders.ghost_name }
        ensures ready { AreReady ⟦<dyn Recorder as Recorder>⟧ self.new.recorders.now }
        ensures begun { self.new.recorders.now.begun ≡ self.old.recorders.now.begun }
        ensures ok { OnOk result (Gains K.tells K.held self.old.screen.now self.new.screen.now piece.now) }
        ensures heard { OnOk result (Hears (telling ⟦<dyn Recorder as Recorder>⟧) (recording self.old.recorders.now) (recording self.new.recorders.now) (Says piece.now ∷ [])) }
        ensures short { IfErr result (λ e. e.taken < length piece.now) }
        ensures err { IfErr result (λ e. Gains K.tells K.held self.old.screen.now self.new.screen.now (take e.taken piece.now)) }
        ensures part { IfErr result (λ e. Hears (telling ⟦<dyn Recorder as Recorder>⟧) (recording self.old.recorders.now) (recording self.new.recorders.now) (Says (take e.taken piece.now) ∷ [])) }
        ensures cause { CountsFaults (is_err result) (K.faults self.old.screen.now) (K.faults self.new.screen.now) }
    {
        match write_all(self.screen, piece) {
            Ok(()) => {
                self.recorders.hear(piece);
                Ok(())
            }
            Err(short) => {
                let (front, _) = piece.split_at(short.taken);
                self.recorders.hear(front);
                Err(short)
            }
        }
    }

    /// Says the prompt.
    pub fn prompt(&mut self, state: &State) -> Result<(), Failed>
        requires { AreReady ⟦<dyn Recorder as Recorder>⟧ self.old.recorders.now }
        ensures same { self.new.screen.ghost_name ≡ self.old.screen.ghost_name }
        ensures same_too { self.new.recorders.ghost_name ≡ self.old.recorders.ghost_name }
        ensures ready { AreReady ⟦<dyn Recorder as Recorder>⟧ self.new.recorders.now }
        ensures begun { self.new.recorders.now.begun ≡ self.old.recorders.now.begun }
        ensures ok { OnOk result (Gains K.tells K.held self.old.screen.now self.new.screen.now (prompt state.now)) }
        ensures heard { OnOk result (Hears (telling ⟦<dyn Recorder as Recorder>⟧) (recording self.old.recorders.now) (recording self.new.recorders.now) (Says (prompt state.now) ∷ [])) }
        ensures err { OnErr result (SaysLess K.tells K.held (telling ⟦<dyn Recorder as Recorder>⟧) self.old.screen.now (recording self.old.recorders.now) self.new.screen.now (recording self.new.recorders.now) [] (prompt state.now)) }
        ensures cause { CountsFaults (is_err result) (K.faults self.old.screen.now) (K.faults self.new.screen.now) }
    {
        Ok(self.say(prompt_of(state))?)
    }

    /// Says the echo of a line.
    pub fn echo(&mut self, line: &[u8]) -> Result<(), Failed>
        requires { AreReady ⟦<dyn Recorder as Recorder>⟧ self.old.recorders.now }
        ensures same { self.new.screen.ghost_name ≡ self.old.screen.ghost_name }
        ensures same_too { self.new.recorders.ghost_name ≡ self.old.recorders.ghost_name }
        ensures ready { AreReady ⟦<dyn Recorder as Recorder>⟧ self.new.recorders.now }
        ensures begun { self.new.recorders.now.begun ≡ self.old.recorders.now.begun }
        ensures ok { OnOk result (Gains K.tells K.held self.old.screen.now self.new.screen.now (echo line.now)) }
        ensures heard { OnOk result (Hears (telling ⟦<dyn Recorder as Recorder>⟧) (recording self.old.recorders.now) (recording self.new.recorders.now) (Says (echo line.now) ∷ [])) }
        ensures err { OnErr result (SaysLess K.tells K.held (telling ⟦<dyn Recorder as Recorder>⟧) self.old.screen.now (recording self.old.recorders.now) self.new.screen.now (recording self.new.recorders.now) [] (echo line.now)) }
        ensures cause { CountsFaults (is_err result) (K.faults self.old.screen.now) (K.faults self.new.screen.now) }
    {
        self.say(shown(line))?;
        self.end_line()
    }

    /// Says the end of a line.
    pub fn end_line(&mut self) -> Result<(), Failed>
        requires { AreReady ⟦<dyn Recorder as Recorder>⟧ self.old.recorders.now }
        ensures same { self.new.screen.ghost_name ≡ self.old.screen.ghost_name }
        ensures same_too { self.new.recorders.ghost_name ≡ self.old.recorders.ghost_name }
        ensures ready { AreReady ⟦<dyn Recorder as Recorder>⟧ self.new.recorders.now }
        ensures begun { self.new.recorders.now.begun ≡ self.old.recorders.now.begun }
        ensures ok { OnOk result (Gains K.tells K.held self.old.screen.now self.new.screen.now (10 ∷ [])) }
        ensures heard { OnOk result (Hears (telling ⟦<dyn Recorder as Recorder>⟧) (recording self.old.recorders.now) (recording self.new.recorders.now) (Says (10 ∷ []) ∷ [])) }
        ensures err { OnErr result (SaysLess K.tells K.held (telling ⟦<dyn Recorder as Recorder>⟧) self.old.screen.now (recording self.old.recorders.now) self.new.screen.now (recording self.new.recorders.now) [] (10 ∷ [])) }
        ensures cause { CountsFaults (is_err result) (K.faults self.old.screen.now) (K.faults self.new.screen.now) }
    {
        Ok(self.say(b"\n")?)
    }

    /// Says the text of a reply to a line. A log that the line closes is closed before it, and one that the line opens is
    /// opened after it: by whether a log was open before the line, and is open after it.
    pub fn reply(
        &mut self,
        alloc: Global,
        reply: Reply,
        line: &[u8],
        was_open: bool,
        is_open: bool,
    ) -> Result<(), Failed>
        requires ready { AreReady ⟦<dyn Recorder as Recorder>⟧ self.old.recorders.now }
        requires open { self.old.recorders.now.begun ≡ was_open }
        ensures same { self.new.screen.ghost_name ≡ self.old.screen.ghost_name }
        ensures same_too { self.new.recorders.ghost_name ≡ self.old.recorders.ghost_name }
        ensures ready { AreReady ⟦<dyn Recorder as Recorder>⟧ self.new.recorders.now }
        ensures ok { OnOk result (Gains K.tells K.held self.old.screen.now self.new.screen.now (text_of reply)) }
        ensures heard { OnOk result (Hears (telling ⟦<dyn Recorder as Recorder>⟧) (recording self.old.recorders.now) (recording self.new.recorders.now) (closing (was_open && not is_open) ++ (Says (text_of reply) ∷ opening (not was_open && is_open) (log_asked (asked_of line.now))))) }
        ensures err { OnErr result (SaysLess K.tells K.held (telling ⟦<dyn Recorder as Recorder>⟧) self.old.screen.now (recording self.old.recorders.now) self.new.screen.now (recording self.new.recorders.now) (closing (was_open && not is_open)) (text_of reply)) }
        ensures cause { CountsFaults (is_err result) (K.faults self.old.screen.now) (K.faults self.new.screen.now) }
    {
        self.close_log(was_open & !is_open);
        self.text(alloc, reply)?;
        self.open_log(!was_open & is_open, line);
        Ok(())
    }

    // Says the text of a reply.
    fn text(&mut self, alloc: Global, reply: Reply) -> Result<(), Failed>
        requires { AreReady ⟦<dyn Recorder as Recorder>⟧ self.old.recorders.now }
        ensures same { self.new.screen.ghost_name ≡ self.old.screen.ghost_name }
        ensures same_too { self.new.recorders.ghost_name ≡ self.old.recorders.ghost_name }
        ensures ready { AreReady ⟦<dyn Recorder as Recorder>⟧ self.new.recorders.now }
        ensures ok { OnOk result (Gains K.tells K.held self.old.screen.now self.new.screen.now (text_of reply)) }
        ensures heard { OnOk result (Hears (telling ⟦<dyn Recorder as Recorder>⟧) (recording self.old.recorders.now) (recording self.new.recorders.now) (Says (text_of reply) ∷ [])) }
        ensures err { OnErr result (SaysLess K.tells K.held (telling ⟦<dyn Recorder as Recorder>⟧) self.old.screen.now (recording self.old.recorders.now) self.new.screen.now (recording self.new.recorders.now) [] (text_of reply)) }
        ensures cause { CountsFaults (is_err result) (K.faults self.old.screen.now) (K.faults self.new.screen.now) }
    {
        let text = reply.into_text(alloc);
        let (front, middle, rest) = text.pieces();
        self.say(front)?;
        self.say(middle)?;
        Ok(self.say(rest)?)
    }

    // Opens the log that a line asks for, where it is to be opened.
    fn open_log(&mut self, opens: bool, line: &[u8])
        requires ready { AreReady ⟦<dyn Recorder as Recorder>⟧ self.old.recorders.now }
        requires closed { opens ≡ true → self.old.recorders.now.begun ≡ false }
        ensures same { self.new.screen.ghost_name ≡ self.old.screen.ghost_name }
        ensures same_too { self.new.recorders.ghost_name ≡ self.old.recorders.ghost_name }
        ensures ready { AreReady ⟦<dyn Recorder as Recorder>⟧ self.new.recorders.now }
        ensures screen { self.new.screen.now ≡ self.old.screen.now }
        ensures heard { Hears (telling ⟦<dyn Recorder as Recorder>⟧) (recording self.old.recorders.now) (recording self.new.recorders.now) (opening opens (log_asked (asked_of line.now))) }
    {
        if opens {
            self.recorders.open_all(log_name(line));
        }
    }

    // Closes the log, where it is to be closed.
    fn close_log(&mut self, closes: bool)
        requires { AreReady ⟦<dyn Recorder as Recorder>⟧ self.old.recorders.now }
        ensures same { self.new.screen.ghost_name ≡ self.old.screen.ghost_name }
        ensures same_too { self.new.recorders.ghost_name ≡ self.old.recorders.ghost_name }
        ensures ready { AreReady ⟦<dyn Recorder as Recorder>⟧ self.new.recorders.now }
        ensures screen { self.new.screen.now ≡ self.old.screen.now }
        ensures heard { Hears (telling ⟦<dyn Recorder as Recorder>⟧) (recording self.old.recorders.now) (recording self.new.recorders.now) (closing closes) }
    {
        if closes {
            self.recorders.close_all();
        }
    }

    /// Closes an open log, as the session ends.
    pub fn end(&mut self)
        requires { AreReady ⟦<dyn Recorder as Recorder>⟧ self.old.recorders.now }
        ensures same { self.new.screen.ghost_name ≡ self.old.screen.ghost_name }
        ensures same_too { self.new.recorders.ghost_name ≡ self.old.recorders.ghost_name }
        ensures ready { AreReady ⟦<dyn Recorder as Recorder>⟧ self.new.recorders.now }
        ensures screen { self.new.screen.now ≡ self.old.screen.now }
        ensures heard { Hears (telling ⟦<dyn Recorder as Recorder>⟧) (recording self.old.recorders.now) (recording self.new.recorders.now) (closing true) }
    {
        self.close_log(true);
    }
}

fn prompt_of(state: &State) -> &'static [u8]
    ensures { result.now ≡ prompt state.now }
{
    match state.open_proof {
        Some(_) => b"MM-PA> ",
        None => b"MM> ",
    }
}

// A line as it is echoed.
fn shown(line: &[u8]) -> &[u8]
    ensures { result.now ≡ shown line.now }
{
    if line.len() <= MOST_LINE { line } else { &[] }
}
