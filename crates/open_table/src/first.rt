// The first command of a sheet: it has to open the table.
ghost use Rattle.std.specs.Prelude.{◌≡◌};
ghost use Rattle.open_table.specs.Firsts.{FirstCommand, LeastNoted};

use crate::open_table::OpenTable;
use commands::Command;
use ledger::notes::Note;
use refusals::{Cause, Refusal};
use sheet::reader::Reader;

/// Reads the first command and opens its table: `None` where there is no command, and `Err` with the note of why none was opened.
/// The reading place moves only behind an Open that is accepted.
pub fn first_command(reader: &mut Reader<'_>) -> Result<Option<OpenTable>, Note>
    ensures first { FirstCommand reader.old.sheet.now reader.old.place.at result reader.new.place.at }
    ensures least { LeastNoted reader.old.sheet.now reader.old.place.at result }
    ensures sheet { reader.new.sheet ≡ reader.old.sheet }
{
    let at = reader.place.at;
    let noted = |refusal| Note { place: at, refusal };
    let mut ahead = *reader;
    let Some(command) = ahead.read().map_err(noted)? else {
        return Ok(None);
    };
    let Command::Open { conditions, tray } = command else {
        return Err(noted(Refusal::new(Cause::WrongStage, command.seat())));
    };
    let table = OpenTable::open(conditions, tray).map_err(noted)?;
    reader.place = ahead.place;
    Ok(Some(table))
}
