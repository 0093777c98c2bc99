//! What a line spells.

ghost use Rattle.std.specs.Prelude.{◌≡◌, ◌≤◌, length};
ghost use Rattle.mm_command.specs.Limits.{most_line};
ghost use Rattle.mm_command.specs.Words.{past_blanks};
ghost use Rattle.mm_command.specs.Table.{table, is_silent, line_said};
ghost use Rattle.mm_command.specs.Taking.{HasRoom, Gives, GivesRows};
ghost use Rattle.mm_command.specs.Spelled.{spelled};

use crate::command::Command;
use crate::edits::{
    read_assign, read_delete, read_improve, read_initialize, read_let, read_minimize, read_redo,
    read_replace, read_save, read_undo, read_unify,
};
use crate::fault::LineFault;
use crate::general::{
    read_close, read_demo, read_exit, read_open, read_prove, read_read, read_set, read_show,
    read_verify, read_write,
};
use crate::take::take_keyword;
use crate::words::{Words, skip_blanks};

/// The command that a line spells, or its first word that doesn't fit.
///
/// The line has at most `MOST_LINE` bytes. Keywords have no case and may be shortened: a whole keyword wins, then the
/// beginning of one alone. Words are judged from left to right. No memory is taken.
#[tactic(auto, unfolding(crate::specs::Table::line_said))]
pub fn read_command<'a>(line: &'a [u8]) -> Result<Command<'a>, LineFault>
    requires { length line.now ≤ most_line }
    ensures { Gives spelled result (line_said line.now) }
{
    if is_silent(skip_blanks(line)) {
        return Ok(Command::Nothing);
    }
    read_words(Words::new(line))
}

fn is_silent(line: &[u8]) -> bool
    ensures { result ≡ is_silent line.now }
{
    match line {
        [] => true,
        [first, ..] => *first == b'!',
    }
}

// The keywords with which commands begin.
const FIRST_KEYWORDS: [&[u8]; 22] = [
    b"READ",
    b"VERIFY",
    b"SHOW",
    b"SET",
    b"WRITE",
    b"OPEN",
    b"CLOSE",
    b"PROVE",
    b"DEMO",
    b"EXIT",
    b"QUIT",
    b"ASSIGN",
    b"REPLACE",
    b"LET",
    b"UNIFY",
    b"INITIALIZE",
    b"DELETE",
    b"IMPROVE",
    b"MINIMIZE_WITH",
    b"UNDO",
    b"REDO",
    b"SAVE",
];

fn read_words(words: Words<'_>) -> Result<Command<'_>, LineFault>
    requires { HasRoom words }
    ensures { GivesRows table words.entry result }
{
    match take_keyword(words, &FIRST_KEYWORDS) {
        Err(fault) => Err(fault),
        Ok((place, words)) => match place {
            0 => read_read(words),
            1 => read_verify(words),
            2 => read_show(words),
            3 => read_set(words),
            4 => read_write(words),
            5 => read_open(words),
            6 => read_close(words),
            7 => read_prove(words),
            8 => read_demo(words),
            9 => read_exit(words),
            10 => read_exit(words),
            11 => read_assign(words),
            12 => read_replace(words),
            13 => read_let(words),
            14 => read_unify(words),
            15 => read_initialize(words),
            16 => read_delete(words),
            17 => read_improve(words),
            18 => read_minimize(words),
            19 => read_undo(words),
            20 => read_redo(words),
            _ => read_save(words),
        },
    }
}
