ghost use Rattle.std.specs.Prelude.{◌≡◌, IfErr, IfOk, true};
ghost use Rattle.mm_base.specs.Files.{Finds};
ghost use Rattle.mm_scope.specs.Contents.{is_read};
ghost use Rattle.mm_scope.specs.Contexts.{Fails};
ghost use Rattle.mm_scope.specs.Databases.{database_of as contents_of};
ghost use Rattle.mm_shell.specs.Answers.{Gives};
ghost use Rattle.mm_database_commands.specs.Commands.{Plans, PutsUnderName, loaded, loading, read, read_refusal};

use crate::call::Call;
use mm_base::Fetched;
use mm_scope::{Database, Kind, ReadFault};
use mm_shell::{Change, Done, Refusal, Report, State, Word};
use std::alloc::Global;

/// How many bytes are fetched of a file: one more than a database may have, as a longer file has the same first fault.
pub const MOST_FETCHED: u64 = 134_217_729;

/// Reads a database from a file.
#[tactic(auto, unfolding(mm_shell::specs::Answers::unless, mm_shell::specs::Answers::given))]
pub fn read<'a>(state: &'a State, name: &'a [u8]) -> Result<Call<'a>, Refusal<'a>>
    ensures plan { Plans (read state.now name.now) result }
    ensures name { PutsUnderName result }
{
    if state.open_proof.is_some() {
        return Err(Refusal::ProofOpen);
    }
    if state.database.is_some() {
        return Err(Refusal::AlreadyRead);
    }
    Ok(Call::Loads(Word::new(name)))
}

/// Makes what was fetched under a name the database, or says why not. Where no file was found, `fetched` is None.
pub fn load<'a>(
    alloc: Global,
    name: Word<'a>,
    fetched: Option<Fetched>,
) -> Result<Done<'a>, Refusal<'a>>
    ensures { (found : _) → Finds found 134217729 fetched → Gives (loaded name.entry found) result }
{
    let Some(fetched) = fetched else {
        return Err(Refusal::NoFile(name));
    };
    match read_bytes(alloc, fetched.bytes) {
        Ok(database) => Ok(loading(database)),
        Err(fault) => Err(read_refusal(fault)),
    }
}

// The database of a file's bytes.
fn read_bytes(alloc: Global, bytes: Vec<u8>) -> Result<Database, ReadFault>
    ensures read { IfOk result (λ database. database ≡ bytes.items) }
    ensures sound { IfOk result (λ _. is_read bytes.items ≡ true) }
    ensures fault { IfErr result (λ fault. Fails fault (contents_of bytes.items)) }
{
    match Database::read(alloc, bytes) {
        Ok(database) => Ok(database),
        Err((_, fault)) => Err(fault),
    }
}

// Why a file isn't read.
fn read_refusal<'a>(fault: ReadFault) -> Refusal<'a>
    ensures { result ≡ read_refusal fault }
{
    match fault {
        ReadFault::Memory => Refusal::OutOfMemory,
        _ => Refusal::BadDatabase(fault),
    }
}

// What is done with a database that is read.
fn loading<'a>(database: Database) -> Done<'a>
    ensures { result ≡ loading database }
{
    Done {
        report: Report::Loaded(
            database.count(),
            database.count_of(Kind::Axiom),
            database.count_of(Kind::Theorem),
        ),
        change: Change::Loads(database),
    }
}
