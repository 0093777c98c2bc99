//! The reader: one token after another.

ghost use Rattle.std.specs.Prelude.{◌≡◌, ◌<◌, ◌^◌, ◌==◌, [], ◌∷◌, ◌++◌, length, not, fold, drop, take, Ok, OnOk};
ghost use Rattle.std.specs.List.{list_any};
ghost use Rattle.std.specs.Str.{bytes_eq};
ghost use Rattle.mm_tables.specs.Tables.{found_in};
ghost use Rattle.mm_scope.specs.Contexts.{Gives, state_of, context_of, answers, add_to, finished, finished_hypothesis, finished_assertion, ended, closed_block, noted};
ghost use Rattle.mm_stated.specs.Statements.{stated};
ghost use Rattle.mm_scope.specs.Until.{ended_before};
ghost use Rattle.mm_scope.specs.Steps.{is_full, a_label, a_constant, a_variable, a_float, a_symbol, a_distinct, at_text, at_end, at_proof, unlabelled, at_constants, labelled, at_open, at_close, step_by, begin, end_declaration, end_float, end_statement, end_distinct};
ghost use Rattle.mm_scope.specs.Events.{essential, asserted};

use crate::ending::{Block, Ending};
use crate::fault::ReadFault;
use crate::mode::Mode;
use mm_stated::{Kind, Statement, mandatory_of, variables_of};
use mm_tables::{Declarations, Gathered, Layers, NOTHING, Names, Partings, Standing, SymbolTable};
use mm_tokens::{Span, Word, is_bad_label, is_bad_symbol};
use std::alloc::Global;

/// The longest statement, in symbols.
pub const MOST_SYMBOLS: usize = 32_768;

/// The longest label, in bytes.
pub const MOST_LABEL: usize = 255;

/// What has been read, and the statement that is begun.
#[derive(Drop)]
pub struct Reader {
    pub symbols: SymbolTable,
    pub labels: Names,
    pub statements: Vec<Statement>,
    pub until: Vec<Option<u32>>,
    pub endings: Vec<Ending>,
    pub hypotheses: Vec<u32>,
    pub blocks: Vec<Block>,
    pub partings: Partings,
    pub actives: Layers,
    pub essentials: Layers,
    pub variables: Declarations,
    pub known: Vec<u32>,
    pub mode: Mode,
    pub begun: u64,
    pub label: Vec<u8>,
    pub described: Option<Span>,
    pub buffer: Gathered,
    pub proof: u64,
    pub comment: Option<Span>,
    pub needed: Gathered,
}

impl Reader {
    fn is_deep(&self) -> bool
        ensures { result ≡ (answers (context_of self.now) []).deep }
    {
        !self.blocks.is_empty()
    }

    fn is_label(&self, text: &[u8]) -> bool
        ensures { result ≡ list_any (bytes_eq text.now) self.now.labels }
    {
        self.labels.find(text).is_some()
    }

    fn is_full(&self) -> bool
        ensures { result ≡ is_full (state_of self.now) }
    {
        self.buffer.len() >= MOST_SYMBOLS
    }

    /// A label, between statements.
    #[tactic(auto, unfolding(crate::specs::Steps::a_label))]
    fn a_label(&mut self, alloc: Global, text: &[u8], place: u64) -> Result<(), ReadFault>
        ensures { Gives self.new result (a_label (state_of self.old) (answers (context_of self.old) text.now) text.now place) }
    {
        if is_bad_label(text) {
            return Err(ReadFault::BadLabel(place));
        }
        if self.is_label(text) || self.symbols.find(text).known {
            return Err(ReadFault::LabelUsed(place));
        }
        if text.len() > MOST_LABEL {
            return Err(ReadFault::TooLong(place));
        }
        self.label = Vec::from_slice(alloc, text)?;
        self.mode = Mode::Labelled;
        self.begun = place;
        self.described = self.comment;
        Ok(())
    }

    /// A symbol of `$f`.
    #[tactic(auto, unfolding(crate::specs::Steps::a_float))]
    fn a_float(&mut self, text: &[u8], place: u64) -> Result<(), ReadFault>
        ensures { Gives self.new result (a_float (state_of self.old) (answers (context_of self.old) text.now) place) }
    {
        let found = self.symbols.find(text);
        let standing = found.standing;
        if !standing.constant && !standing.active {
            return Err(ReadFault::NotActive(place));
        }
        if self.buffer.is_empty() {
            if !standing.constant {
                return Err(ReadFault::WrongForm(place));
            }
        } else if self.buffer.len() > 1 || standing.constant {
            return Err(ReadFault::WrongForm(place));
        } else if standing.floated {
            return Err(ReadFault::FloatRepeated(place));
        }
        self.buffer.push(found.number)?;
        Ok(())
    }

    /// A symbol of `$e`, `$a` or `$p`.
    #[tactic(auto, unfolding(crate::specs::Steps::a_symbol))]
    fn a_symbol(&mut self, text: &[u8], place: u64) -> Result<(), ReadFault>
        ensures { Gives self.new result (a_symbol (state_of self.old) (answers (context_of self.old) text.now) place) }
    {
        let found = self.symbols.find(text);
        let standing = found.standing;
        if !standing.constant && !standing.active {
            return Err(ReadFault::NotActive(place));
        }
        if self.buffer.is_empty() && !standing.constant {
            return Err(ReadFault::WrongForm(place));
        }
        if !standing.constant && !standing.floated {
            return Err(ReadFault::NoFloat(place));
        }
        if self.is_full() {
            return Err(ReadFault::TooLong(place));
        }
        self.buffer.push(found.number)?;
        Ok(())
    }

    /// A symbol of `$c`.
    #[tactic(auto, unfolding(crate::specs::Steps::a_constant, crate::specs::Contexts::add_to))]
    fn a_constant(&mut self, alloc: Global, text: &[u8], place: u64) -> Result<(), ReadFault>
        ensures { Gives self.new result (a_constant add_to (state_of self.old) (answers (context_of self.old) text.now) text.now place) }
    {
        if is_bad_symbol(text) {
            return Err(ReadFault::BadSymbol(place));
        }
        let found = self.symbols.find(text);
        if found.known || self.is_label(text) {
            return Err(ReadFault::Redeclared(place));
        }
        if self.is_full() {
            return Err(ReadFault::TooLong(place));
        }
        self.symbols.declare(
            alloc,
            text,
            Standing {
                constant: true,
                ..NOTHING
            },
        )?;
        self.buffer.push(found.number)?;
        Ok(())
    }

    /// A symbol of `$v`.
    #[tactic(auto, unfolding(crate::specs::Steps::a_variable, crate::specs::Contexts::add_to))]
    fn a_variable(&mut self, alloc: Global, text: &[u8], place: u64) -> Result<(), ReadFault>
        ensures { Gives self.new result (a_variable add_to (state_of self.old) (answers (context_of self.old) text.now) text.now place) }
    {
        if is_bad_symbol(text) {
            return Err(ReadFault::BadSymbol(place));
        }
        let found = self.symbols.find(text);
        if found.standing.active || found.standing.constant || self.is_label(text) {
            return Err(ReadFault::Redeclared(place));
        }
        if self.is_full() {
            return Err(ReadFault::TooLong(place));
        }
        if found.known {
            self.symbols.set(
                found.number,
                Standing {
                    active: true,
                    ..found.standing
                },
            );
        } else {
            self.symbols.declare(
                alloc,
                text,
                Standing {
                    active: true,
                    ..NOTHING
                },
            )?;
        }
        self.endings.push(Ending::Active(found.number))?;
        self.variables.push(alloc, found.number)?;
        self.buffer.push(found.number)?;
        Ok(())
    }

    /// A symbol of `$d`.
    #[tactic(auto, unfolding(crate::specs::Steps::a_distinct))]
    fn a_distinct(&mut self, text: &[u8], place: u64) -> Result<(), ReadFault>
        ensures { Gives self.new result (a_distinct (state_of self.old) (answers (context_of self.old) text.now) place) }
    {
        let found = self.symbols.find(text);
        let standing = found.standing;
        if !standing.constant && !standing.active {
            return Err(ReadFault::NotActive(place));
        }
        if standing.constant || self.buffer.contains(found.number) {
            return Err(ReadFault::DistinctForm(place));
        }
        if self.is_full() {
            return Err(ReadFault::TooLong(place));
        }
        self.buffer.push(found.number)?;
        Ok(())
    }

    /// A token that is no keyword.
    #[tactic(auto, unfolding(crate::specs::Steps::at_text))]
    fn at_text(&mut self, alloc: Global, text: &[u8], place: u64) -> Result<(), ReadFault>
        ensures { Gives self.new result (at_text add_to (state_of self.old) self.old.mode (answers (context_of self.old) text.now) text.now place) }
    {
        match self.mode {
            Mode::Start => self.a_label(alloc, text, place),
            Mode::Labelled => Err(ReadFault::WrongForm(place)),
            Mode::Constants => self.a_constant(alloc, text, place),
            Mode::Variables => self.a_variable(alloc, text, place),
            Mode::Distinct => self.a_distinct(text, place),
            Mode::Float => self.a_float(text, place),
            Mode::Essential | Mode::Axiom | Mode::Theorem => self.a_symbol(text, place),
            Mode::Proof => Ok(()),
        }
    }

    /// What is in force before the next labelled statement is noted.
    fn note(&mut self) -> Result<(), ReadFault>
        ensures { Gives self.new result (Ok (noted (state_of self.old))) }
    {
        self.partings.note()?;
        self.actives.note()?;
        self.variables.note()?;
        let known = self.symbols.names().len() as u32;
        self.known.push(known)?;
        Ok(())
    }

    /// The statement that is begun is done.
    fn finish(
        &mut self,
        alloc: Global,
        statement: Statement,
        until: Option<u32>,
    ) -> Result<(), ReadFault>
        ensures { Gives self.new result (Ok (finished (state_of self.old) (stated statement) until)) }
    {
        self.note()?;
        self.labels.insert(alloc, self.label.as_slice())?;
        self.statements.push(statement)?;
        self.until.push(until)?;
        self.buffer.clear();
        self.mode = Mode::Start;
        Ok(())
    }

    /// The hypothesis that is begun is done.
    fn finish_hypothesis(&mut self, alloc: Global, kind: Kind) -> Result<(), ReadFault>
        ensures { Gives self.new result (Ok (finished_hypothesis (state_of self.old) kind)) }
    {
        let id = self.labels.len() as u32;
        let symbols = Vec::from_slice(alloc, self.buffer.as_slice())?;
        let statement = Statement {
            kind,
            symbols,
            mandatory: Vec::new(alloc),
            pairs: Vec::new(alloc),
            from: 0,
            to: 0,
            described: self.described,
        };
        self.finish(alloc, statement, None)?;
        self.hypotheses.push(id)?;
        self.actives.push(id)?;
        Ok(())
    }

    /// The assertion that is begun is done.
    fn finish_assertion(
        &mut self,
        alloc: Global,
        kind: Kind,
        from: u64,
        to: u64,
    ) -> Result<(), ReadFault>
        ensures { Gives self.new result (Ok (finished_assertion (state_of self.old) kind from to)) }
    {
        let essentials = self.essentials.now().to_vec(alloc)?;
        let mandatory = mandatory_of(
            alloc,
            &mut self.needed,
            &self.symbols,
            self.statements.as_slice(),
            essentials.as_slice(),
            self.buffer.as_slice(),
        )?;
        let variables = variables_of(alloc, self.statements.as_slice(), mandatory.as_slice())?;
        let pairs = self.partings.pairs_among(alloc, variables.as_slice())?;
        let symbols = Vec::from_slice(alloc, self.buffer.as_slice())?;
        let statement = Statement {
            kind,
            symbols,
            mandatory,
            pairs,
            from,
            to,
            described: self.described,
        };
        self.finish(alloc, statement, Some(0))
    }

    /// `$=`.
    #[tactic(auto, unfolding(crate::specs::Steps::at_proof))]
    fn at_proof(&mut self, place: u64) -> Result<(), ReadFault>
        requires { place < 2 ^ 32 }
        ensures { Gives self.new result (at_proof (state_of self.old) self.old.mode place) }
    {
        match self.mode {
            Mode::Theorem => {
                if self.buffer.is_empty() {
                    return Err(ReadFault::WrongForm(place));
                }
                self.mode = Mode::Proof;
                self.proof = place + 2;
                Ok(())
            }
            _ => Err(ReadFault::WrongForm(place)),
        }
    }

    /// The end of `$c` or `$v`.
    fn end_declaration(&mut self, place: u64) -> Result<(), ReadFault>
        ensures { Gives self.new result (end_declaration (state_of self.old) place) }
    {
        if self.buffer.is_empty() {
            return Err(ReadFault::WrongForm(place));
        }
        self.mode = Mode::Start;
        self.buffer.clear();
        Ok(())
    }

    /// The end of `$f`.
    #[tactic(auto, unfolding(crate::specs::Contexts::add_to))]
    fn end_float(&mut self, alloc: Global, place: u64) -> Result<(), ReadFault>
        ensures { Gives self.new result (end_float add_to (state_of self.old) place) }
    {
        if self.buffer.len() != 2 {
            return Err(ReadFault::WrongForm(place));
        }
        let variable = self.buffer.as_slice()[1];
        let id = self.labels.len() as u32;
        let standing = self.symbols.standing(variable);
        self.symbols.set(
            variable,
            Standing {
                floated: true,
                float: id,
                ..standing
            },
        );
        self.endings.push(Ending::Floated(variable))?;
        self.finish_hypothesis(alloc, Kind::Float)
    }

    /// The end of `$d`.
    #[tactic(auto, unfolding(crate::specs::Contexts::add_to))]
    fn end_distinct(&mut self, alloc: Global, place: u64) -> Result<(), ReadFault>
        ensures { Gives self.new result (end_distinct add_to (state_of self.old) place) }
    {
        if self.buffer.len() < 2 {
            return Err(ReadFault::DistinctForm(place));
        }
        self.partings.part(alloc, self.buffer.as_slice())?;
        self.mode = Mode::Start;
        self.buffer.clear();
        Ok(())
    }

    /// The end of `$e`.
    #[tactic(auto, unfolding(crate::specs::Contexts::add_to))]
    fn end_essential(&mut self, alloc: Global, place: u64) -> Result<(), ReadFault>
        ensures { Gives self.new result (end_statement add_to (state_of self.old) (essential self.old.label.items self.old.buffer self.old.described) place) }
    {
        if self.buffer.is_empty() {
            return Err(ReadFault::WrongForm(place));
        }
        let id = self.labels.len() as u32;
        self.essentials.push(id)?;
        self.finish_hypothesis(alloc, Kind::Essential)
    }

    /// The end of `$a`.
    #[tactic(auto, unfolding(crate::specs::Contexts::add_to))]
    fn end_axiom(&mut self, alloc: Global, place: u64) -> Result<(), ReadFault>
        ensures { Gives self.new result (end_statement add_to (state_of self.old) (asserted self.old.label.items self.old.buffer self.old.described) place) }
    {
        if self.buffer.is_empty() {
            return Err(ReadFault::WrongForm(place));
        }
        self.finish_assertion(alloc, Kind::Axiom, 0, 0)
    }

    /// `$.`.
    #[tactic(auto, unfolding(crate::specs::Steps::at_end, crate::specs::Contexts::add_to))]
    fn at_end(&mut self, alloc: Global, place: u64) -> Result<(), ReadFault>
        ensures { Gives self.new result (at_end add_to (state_of self.old) self.old.mode place) }
    {
        match self.mode {
            Mode::Start | Mode::Labelled | Mode::Theorem => Err(ReadFault::WrongForm(place)),
            Mode::Constants | Mode::Variables => self.end_declaration(place),
            Mode::Distinct => self.end_distinct(alloc, place),
            Mode::Float => self.end_float(alloc, place),
            Mode::Essential => self.end_essential(alloc, place),
            Mode::Axiom => self.end_axiom(alloc, place),
            Mode::Proof => {
                let from = self.proof;
                self.finish_assertion(alloc, Kind::Theorem, from, place)
            }
        }
    }

    fn begin(&mut self, mode: Mode, place: u64)
        ensures { state_of self.new ≡ begin (state_of self.old) mode place }
    {
        self.mode = mode;
        self.begun = place;
        self.buffer.clear();
    }

    /// Another keyword that begins a statement without a label.
    #[tactic(auto, unfolding(crate::specs::Steps::unlabelled))]
    fn unlabelled(&mut self, mode: Mode, place: u64) -> Result<(), ReadFault>
        ensures { Gives self.new result (unlabelled (state_of self.old) self.old.mode mode place) }
    {
        match self.mode {
            Mode::Start => {
                self.begin(mode, place);
                Ok(())
            }
            Mode::Labelled => Err(ReadFault::LabelNotWanted(place)),
            _ => Err(ReadFault::WrongForm(place)),
        }
    }

    /// `$c`.
    #[tactic(auto, unfolding(crate::specs::Steps::at_constants))]
    fn at_constants(&mut self, place: u64) -> Result<(), ReadFault>
        ensures { Gives self.new result (at_constants (state_of self.old) self.old.mode (answers (context_of self.old) []).deep place) }
    {
        match self.mode {
            Mode::Start => {
                if self.is_deep() {
                    return Err(ReadFault::ConstantInBlock(place));
                }
                self.begin(Mode::Constants, place);
                Ok(())
            }
            Mode::Labelled => {
                if self.is_deep() {
                    return Err(ReadFault::ConstantInBlock(place));
                }
                Err(ReadFault::LabelNotWanted(place))
            }
            _ => Err(ReadFault::WrongForm(place)),
        }
    }

    /// A keyword that begins a statement with a label.
    #[tactic(auto, unfolding(crate::specs::Steps::labelled))]
    fn labelled(&mut self, mode: Mode, place: u64) -> Result<(), ReadFault>
        ensures { Gives self.new result (labelled (state_of self.old) self.old.mode mode place) }
    {
        match self.mode {
            Mode::Labelled => {
                self.begin(mode, place);
                Ok(())
            }
            Mode::Start => Err(ReadFault::LabelMissing(place)),
            _ => Err(ReadFault::WrongForm(place)),
        }
    }

    /// `${`.
    #[tactic(auto, unfolding(crate::specs::Steps::at_open, crate::specs::Contexts::add_to))]
    fn at_open(&mut self, place: u64) -> Result<(), ReadFault>
        ensures { Gives self.new result (at_open add_to (state_of self.old) self.old.mode place) }
    {
        match self.mode {
            Mode::Start => {
                let endings = self.endings.len();
                let hypotheses = self.hypotheses.len();
                self.blocks.push(Block {
                    place,
                    endings,
                    hypotheses,
                })?;
                self.partings.open()?;
                self.actives.open()?;
                self.essentials.open()?;
                self.variables.open()?;
                Ok(())
            }
            Mode::Labelled => Err(ReadFault::LabelNotWanted(place)),
            _ => Err(ReadFault::WrongForm(place)),
        }
    }

    /// The innermost block is closed.
    fn close(&mut self, alloc: Global) -> Result<(), ReadFault>
        ensures { Gives self.new result (Ok (closed_block (state_of self.old))) }
    {
        self.variables.close(alloc)?;
        self.partings.close();
        self.actives.close();
        self.essentials.close();
        if let Some(block) = self.blocks.pop() {
            end_from(&mut self.symbols, &mut self.endings, block.endings);
            let next = self.labels.len() as u32;
            end_hypotheses_from(
                &mut self.until,
                &mut self.hypotheses,
                block.hypotheses,
                next,
            );
        }
        Ok(())
    }

    /// `$}`.
    #[tactic(auto, unfolding(crate::specs::Steps::at_close, crate::specs::Contexts::add_to))]
    fn at_close(&mut self, alloc: Global, place: u64) -> Result<(), ReadFault>
        ensures { Gives self.new result (at_close add_to (state_of self.old) self.old.mode (answers (context_of self.old) []).deep place) }
    {
        match self.mode {
            Mode::Start => {
                if !self.is_deep() {
                    return Err(ReadFault::BlockNotOpen(place));
                }
                self.close(alloc)
            }
            Mode::Labelled => Err(ReadFault::LabelNotWanted(place)),
            _ => Err(ReadFault::WrongForm(place)),
        }
    }

    /// The next token.
    #[tactic(auto, unfolding(crate::specs::Steps::step_by))]
    pub fn step(
        &mut self,
        alloc: Global,
        word: Word,
        text: &[u8],
        place: u64,
    ) -> Result<(), ReadFault>
        requires { place < 2 ^ 32 }
        ensures { Gives self.new result (step_by add_to (state_of self.old) (answers (context_of self.old) text.now) word text.now place) }
    {
        match word {
            Word::Unknown => Err(ReadFault::UnknownKeyword(place)),
            Word::Inclusion => Err(ReadFault::FileInclusion(place)),
            Word::Text => self.at_text(alloc, text, place),
            Word::End => self.at_end(alloc, place),
            Word::Proof => self.at_proof(place),
            Word::Constants => self.at_constants(place),
            Word::Variables => self.unlabelled(Mode::Variables, place),
            Word::Distinct => self.unlabelled(Mode::Distinct, place),
            Word::Open => self.at_open(place),
            Word::Close => self.at_close(alloc, place),
            Word::Float => self.labelled(Mode::Float, place),
            Word::Essential => self.labelled(Mode::Essential, place),
            Word::Axiom => self.labelled(Mode::Axiom, place),
            Word::Theorem => self.labelled(Mode::Theorem, place),
        }
    }
}

/// Ends what the endings say.
fn end_all(symbols: &mut SymbolTable, endings: &[Ending])
    ensures { symbols.new ≡ fold ended symbols.old endings.now }
{
    for ending in endings {
        match *ending {
            Ending::Active(number) => {
                let standing = symbols.standing(number);
                symbols.set(
                    number,
                    Standing {
                        active: false,
                        ..standing
                    },
                );
            }
            Ending::Floated(number) => {
                let standing = symbols.standing(number);
                symbols.set(
                    number,
                    Standing {
                        floated: false,
                        ..standing
                    },
                );
            }
        }
    }
}

/// Ends what the endings from a place on say.
#[tactic(auto, using(crate::proofs::Closing::nothing_ends, crate::proofs::Closing::take_whole))]
fn end_from(symbols: &mut SymbolTable, endings: &mut Vec<Ending>, from: usize)
    ensures table { symbols.new ≡ fold ended symbols.old (drop from endings.old.items) }
    ensures rest { endings.new.items ≡ take from endings.old.items }
{
    if from < endings.len() {
        end_all(symbols, &endings[from..]);
        endings.truncate(from);
    }
}

/// Ends hypotheses before the statement that comes next.
fn end_hypotheses(until: &mut [Option<u32>], hypotheses: &[u32], next: u32)
    ensures { until.new ≡ fold (ended_before next) until.old hypotheses.now }
{
    for id in hypotheses {
        if (*id as usize) < until.len() {
            until[*id as usize] = Some(next);
        }
    }
}

/// Ends the hypotheses from a place on.
#[tactic(auto, using(crate::proofs::Closing::no_hypothesis_ends, crate::proofs::Closing::take_whole))]
fn end_hypotheses_from(
    until: &mut Vec<Option<u32>>,
    hypotheses: &mut Vec<u32>,
    from: usize,
    next: u32,
)
    ensures until { until.new.items ≡ fold (ended_before next) until.old.items (drop from hypotheses.old.items) }
    ensures rest { hypotheses.new.items ≡ take from hypotheses.old.items }
{
    if from < hypotheses.len() {
        end_hypotheses(until.as_mut_slice(), &hypotheses[from..], next);
        hypotheses.truncate(from);
    }
}
