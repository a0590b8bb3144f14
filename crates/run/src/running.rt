// The run: the commands of a sheet from a place on, each performed once, until the sheet ends, one cannot be read, or there is no room.
ghost use Rattle.std.specs.Prelude.{◌≡◌, ℕ, ◌≤◌, ◌&&◌, length, nat_lt};
ghost use Rattle.ledger.specs.Rolls.{free};
ghost use Rattle.sheet.specs.Reading.{longest};
ghost use Rattle.run.specs.Runs.{no_room, Ran, Answered};
ghost use Rattle.run.specs.Steps.{Stepped};

use crate::ended::Ended;
use crate::rolls::Rolls;
use game::interface::Game;
use refusals::{Cause, Refusal};
use sheet::reader::Reader;
use sheet::reading::LONGEST;
use table::holdings::Table;

// Whether the run stops here for want of room: bytes remain, and a command might not find room for what it writes.
fn stops_here(reader: &Reader<'_>, rolls: &Rolls<'_, '_>) -> bool
    ensures { result ≡ (nat_lt reader.now.place.at (length reader.now.sheet.now) && no_room (free rolls.now.ledger) (free rolls.now.notes)) }
{
    reader.place.at < reader.sheet.len() && rolls.lack_room()
}

// Performs the command at the place, unless the run ends here.
// That the sheet is not too long is asked of the caller: a type that carried it would hold three references, each with a clause that it is still the same one.
fn step<G: Game>(
    table: &mut Table<G>,
    reader: &mut Reader<'_>,
    rolls: &mut Rolls<'_, '_>,
) -> Option<Ended>
    requires { length reader.old.sheet.now ≤ longest }
    ensures stepped { Stepped (G.rules table.old.game) reader.old.sheet.now table.old.books reader.old.place.at rolls.old.ledger rolls.old.notes result table.new.books reader.new.place.at rolls.new.ledger rolls.new.notes }
    ensures game { table.new.game ≡ table.old.game }
    ensures sheet { reader.new.sheet ≡ reader.old.sheet }
{
    let at = reader.place.at;
    if stops_here(reader, rolls) {
        return Some(Ended::NoRoom);
    }
    match reader.read() {
        Ok(Some(command)) => {
            if let Err(refusal) = table.perform(command, &mut rolls.ledger) {
                rolls.note(at, refusal);
            }
            None
        }
        Ok(None) => Some(Ended::SheetEnd),
        Err(refusal) => {
            rolls.note(at, refusal);
            Some(Ended::Unreadable(refusal))
        }
    }
}

// Performs commands until the run ends. The sheet's length is asked as by a step.
fn go_on<G: Game>(table: &mut Table<G>, reader: &mut Reader<'_>, rolls: &mut Rolls<'_, '_>) -> Ended
    requires { length reader.old.sheet.now ≤ longest }
    ensures ran { Ran (G.rules table.old.game) reader.old.sheet.now table.old.books reader.old.place.at rolls.old.ledger rolls.old.notes result table.new.books reader.new.place.at rolls.new.ledger rolls.new.notes }
    ensures game { table.new.game ≡ table.old.game }
    ensures sheet { reader.new.sheet ≡ reader.old.sheet }
{
    loop {
        if let Some(ended) = step(table, reader, rolls) {
            return ended;
        }
    }
}

/// Runs a sheet on a table from the reading place on, and returns how the run ended.
///
/// Each command is performed once, in order; what is refused leaves a note. It stops early exactly where bytes remain and fewer than seven places of the ledger or none for a note are free.
/// Refused with 22, seat 0, where the sheet has more than 65,536 bytes: then table, rolls and reading place stay as they were.
pub fn run<G: Game>(
    table: &mut Table<G>,
    reader: &mut Reader<'_>,
    rolls: &mut Rolls<'_, '_>,
) -> Result<Ended, Refusal>
    ensures answered { Answered (G.rules table.old.game) reader.old.sheet.now table.old.books reader.old.place.at rolls.old.ledger rolls.old.notes result table.new.books reader.new.place.at rolls.new.ledger rolls.new.notes }
    ensures game { table.new.game ≡ table.old.game }
    ensures sheet { reader.new.sheet ≡ reader.old.sheet }
{
    if reader.sheet.len() > LONGEST {
        return Err(Refusal::new(Cause::SheetTooLong, 0));
    }
    Ok(go_on(table, reader, rolls))
}
