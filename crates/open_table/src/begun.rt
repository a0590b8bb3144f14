// A sheet from its first byte: its first command opens the table, and the commands behind it are run.
ghost use Rattle.std.specs.Prelude.{◌≡◌};
ghost use Rattle.open_table.specs.Begins.{SheetBegun};
ghost use Rattle.open_table.specs.Firsts.{LeastNoted};

use crate::first::first_command;
use crate::open_table::OpenTable;
use ledger::notes::Note;
use run::ended::Ended;
use run::rolls::Rolls;
use sheet::reader::Reader;

/// A sheet that was begun: the table that it opened, and how its first run ended.
#[derive(Drop)]
pub struct Begun {
    pub table: OpenTable,
    pub ended: Ended,
}

/// Opens the table that the sheet begins with and runs the sheet on it: `None` where there is no command, and `Err` with the note of why no table was opened.
pub fn begin(reader: &mut Reader<'_>, rolls: &mut Rolls<'_, '_>) -> Result<Option<Begun>, Note>
    ensures begun { SheetBegun reader.old.sheet.now reader.old.place.at rolls.old.ledger rolls.old.notes result reader.new.place.at rolls.new.ledger rolls.new.notes }
    ensures least { LeastNoted reader.old.sheet.now reader.old.place.at result }
    ensures sheet { reader.new.sheet ≡ reader.old.sheet }
{
    let Some(mut table) = first_command(reader)? else {
        return Ok(None);
    };
    // a sheet whose first command was read is not too long
    let ended = table.run(reader, rolls).unwrap();
    Ok(Some(Begun { table, ended }))
}
