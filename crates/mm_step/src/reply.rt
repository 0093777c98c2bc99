ghost use Rattle.std.specs.Prelude.{◌≡◌, ◌≢◌, IfOk, false, is_ok, true};
ghost use Rattle.mm_shell.specs.Answers.{report_takes};
ghost use Rattle.mm_shell.specs.Texts.{report_text};
ghost use Rattle.mm_shell.specs.declared.refusal.Refusal.TheVariants.{OutOfMemory};
ghost use Rattle.mm_step.specs.Effects.{text_of};
ghost use Rattle.mm_step.specs.Ran.{Refuses, Tells};

use mm_base::Memory;
use mm_shell::{Change, Done, Refusal, Report, Text, refusal_text, report_text};
use std::alloc::Global;

/// What has become of a line.
#[derive(Drop)]
pub enum Reply {
    /// It ended with this text, and the text may be that of a refusal.
    Done { text: Text, refused: bool },
    /// It found no memory.
    Starved,
    /// Its call on the files failed.
    Faulted,
}

impl Reply {
    /// Its text. This takes no memory.
    pub fn into_text(self, alloc: Global) -> Text
        ensures { result ≡ text_of self }
    {
        match self {
            Reply::Done { text, .. } => text,
            Reply::Starved => Text::refusal(alloc, 42, b"out of memory\n"),
            Reply::Faulted => Text::refusal(alloc, 40, b"file fault\n"),
        }
    }
}

/// The reply to a command that is refused.
pub fn refuse(alloc: Global, refusal: Refusal<'_>) -> Reply
    ensures { Refuses refusal.entry result }
{
    match refusal {
        Refusal::OutOfMemory => Reply::Starved,
        _ => tell_refusal(alloc, &refusal),
    }
}

// The text of a refusal, where there is memory for it.
fn tell_refusal(alloc: Global, refusal: &Refusal<'_>) -> Reply
    requires { refusal.now ≢ OutOfMemory }
    ensures { Refuses refusal.now result }
{
    match refusal_text(alloc, refusal) {
        Err(_) => Reply::Starved,
        Ok(text) => Reply::Done {
            text,
            refused: true,
        },
    }
}

/// The text of what is done, and its change; or the reply where there was no memory for the text.
pub fn tell(alloc: Global, done: Done<'_>) -> Result<(Text, Change), Reply>
    ensures { Tells (Ok done.entry) result }
{
    let Done { report, change } = done;
    match text_told(alloc, report) {
        Err(_) => Err(Reply::Starved),
        Ok(text) => Ok((text, change)),
    }
}

/// The text of a report.
// The report is dropped here, as that costs much to prove where more is done.
pub fn text_told(alloc: Global, report: Report<'_>) -> Result<Text, Memory>
    ensures is { IfOk result (λ text. text ≡ report_text report.entry) }
    ensures free { report_takes report.entry ≡ false → is_ok result ≡ true }
{
    report_text(alloc, &report)
}
