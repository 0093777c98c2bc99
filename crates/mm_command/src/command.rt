//! The commands.

/// The word for a step of the proof in hand.
#[derive(Clone, Copy, Debug, PartialEq, Eq)]
pub enum StepWord {
    /// A step's number; steps count from 1. It may name no step.
    Number(u64),
    /// FIRST, the first unknown step.
    First,
    /// LAST, the last unknown step.
    Last,
}

/// A command, with the words of the line that spells it. Words are parts of the line, without quotes.
///
/// Files pass `is_name`. Labels and patterns may be any word.
#[derive(Clone, Copy, Debug, PartialEq, Eq)]
pub enum Command<'a> {
    /// The line is empty but for blanks, or its first word begins with `!`.
    Nothing,
    /// READ file.
    Read {
        file: &'a [u8],
    },
    /// VERIFY PROOF pattern.
    VerifyProof {
        pattern: &'a [u8],
    },
    /// VERIFY MARKUP pattern.
    VerifyMarkup {
        pattern: &'a [u8],
    },
    /// SHOW STATEMENT label.
    ShowStatement {
        label: &'a [u8],
    },
    /// SHOW STATEMENT label /HTML.
    ShowPage {
        label: &'a [u8],
    },
    /// SHOW TRACE_BACK label, with /AXIOMS.
    ShowTraceBack {
        label: &'a [u8],
        axioms: bool,
    },
    /// SHOW USAGE label, with /RECURSIVE.
    ShowUsage {
        label: &'a [u8],
        recursive: bool,
    },
    /// SHOW NEW_PROOF, with /UNKNOWN.
    ShowNewProof {
        unknown: bool,
    },
    /// SET UNDO n, from 0 to 1,000 edits.
    SetUndo {
        n: u32,
    },
    /// SET UNIFICATION_TIMEOUT n, from 1 to 10,000,000 trials.
    SetTrials {
        n: u32,
    },
    /// SET BRACKETS ON or OFF.
    SetBrackets {
        on: bool,
    },
    /// SET EMPTY_SUBSTITUTION OFF; `on` is false, since ON is not built yet.
    SetEmpty {
        on: bool,
    },
    /// WRITE SOURCE file.
    WriteSource {
        file: &'a [u8],
    },
    /// OPEN LOG file.
    OpenLog {
        file: &'a [u8],
    },
    /// CLOSE LOG.
    CloseLog,
    /// PROVE label, with /OVERRIDE.
    Prove {
        label: &'a [u8],
        guarded_too: bool,
    },
    /// DEMO n, from 1 to 1,000 theorems.
    Demo {
        n: u32,
    },
    /// EXIT or QUIT, with /FORCE.
    Exit {
        force: bool,
    },
    /// ASSIGN step label, with /OVERRIDE.
    Assign {
        step: StepWord,
        label: &'a [u8],
        guarded_too: bool,
    },
    /// REPLACE step label, with /OVERRIDE.
    Replace {
        step: StepWord,
        label: &'a [u8],
        guarded_too: bool,
    },
    /// LET VARIABLE $n = text: the work variable's number, from 1 to 4,000,000,000; the text, which may be empty, and the
    /// number of its word.
    LetVariable {
        number: u32,
        text: &'a [u8],
        word: u32,
    },
    /// LET STEP step = text: as LET VARIABLE, for the statement of a step.
    LetStep {
        step: StepWord,
        text: &'a [u8],
        word: u32,
    },
    /// UNIFY STEP step, with /CHOICE n, from 1 to 4,294,967,295.
    UnifyStep {
        step: StepWord,
        choice: Option<u32>,
    },
    /// UNIFY ALL.
    UnifyAll,
    /// INITIALIZE STEP step.
    InitializeStep {
        step: StepWord,
    },
    /// INITIALIZE ALL.
    InitializeAll,
    /// DELETE STEP step.
    DeleteStep {
        step: StepWord,
    },
    /// DELETE ALL.
    DeleteAll,
    /// DELETE FLOATING_HYPOTHESES.
    DeleteFloats,
    /// IMPROVE step, with /DEPTH n, from 0 to 100, and /NO_DISTINCT.
    Improve {
        step: StepWord,
        depth: Option<u32>,
        no_distinct: bool,
    },
    /// IMPROVE ALL, with the same qualifiers.
    ImproveAll {
        depth: Option<u32>,
        no_distinct: bool,
    },
    /// MINIMIZE_WITH pattern, with /EXCEPT, /FORBID and /NO_NEW_AXIOMS_FROM, each with a pattern, /MAY_GROW and /OVERRIDE.
    Minimize {
        pattern: &'a [u8],
        except: Option<&'a [u8]>,
        forbid: Option<&'a [u8]>,
        no_new_axioms: Option<&'a [u8]>,
        may_grow: bool,
        guarded_too: bool,
    },
    /// UNDO.
    Undo,
    /// REDO.
    Redo,
    /// SAVE NEW_PROOF, with /NORMAL or /COMPRESSED, and /OVERRIDE.
    Save {
        normal: bool,
        compressed: bool,
        guarded_too: bool,
    },
}
