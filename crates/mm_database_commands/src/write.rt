ghost use Rattle.std.specs.Prelude.{◌≡◌, IsTrue};
ghost use Rattle.mm_base.specs.Name.{is_name_lem};
ghost use Rattle.mm_database_commands.specs.Commands.{Plans, PutsUnderName, write};

use crate::call::Call;
use mm_shell::{DatabaseRef, Refusal, Report, State, Word, find_database};

/// Puts the database into a file.
#[tactic(auto, unfolding(mm_shell::specs::Answers::given))]
pub fn write<'a>(state: &'a State, name: &'a [u8]) -> Result<Call<'a>, Refusal<'a>>
    requires { IsTrue (is_name_lem name.now) }
    ensures plan { Plans (write state.now name.now) result }
    ensures name { PutsUnderName result }
{
    let database = find_database(state)?;
    Ok(Call::Puts(
        Word::new(name),
        DatabaseRef::new(database),
        Report::Wrote(Word::new(name)),
    ))
}
