// Opening a table, performing a command, and running a sheet.
ghost use Rattle.std.specs.Prelude.{◌≡◌};
ghost use Rattle.commands.specs.Calls.{call_of};
ghost use Rattle.refusals.specs.Refusals.{Answers};
ghost use Rattle.table.specs.Performing.{cause_in};
ghost use Rattle.open_table.specs.Tables.{opening_causes, Opened, Done, SheetRun};

use super::OpenTable;
use commands::{Command, Conditions};
use games::any_game::AnyGame;
use ledger::entries::Entry;
use ledger::rolls::Roll;
use refusals::{Cause, Refusal};
use run::ended::Ended;
use run::rolls::Rolls;
use run::running;
use sheet::reader::Reader;
use table::holdings::{LIMIT, Table};
use table::opening::Opening;

impl OpenTable {
    /// Opens a table at any of the four games from a game number, conditions and a tray.
    ///
    /// Refused with 9 where the tray is above 1,000,000,000,000 chips, and with 18 where the bounds of a stake are broken, there is no game of this number, or cap and odds are not what it asks;
    /// where several hold, with the least. The refusal names no seat.
    pub fn open(conditions: Conditions, tray: u64) -> Result<OpenTable, Refusal>
        ensures opened { Opened conditions tray result }
        ensures least { Answers (opening_causes conditions tray) (cause_in result) }
    {
        if tray > LIMIT {
            return Err(Refusal::new(Cause::TotalTooLarge, 0));
        }
        let game = AnyGame::new(conditions.game, conditions.cap, conditions.odds)?;
        let opening = Opening {
            minimum: conditions.minimum,
            maximum: conditions.maximum,
            tray,
        };
        let table = Table::open(game, opening)?;
        Ok(OpenTable { table })
    }

    /// Performs one command: an accepted settlement writes its entries to the ledger; a refused command changes nothing.
    pub fn perform(
        &mut self,
        command: Command<'_>,
        ledger: &mut Roll<'_, Entry>,
    ) -> Result<(), Refusal>
        ensures { Done self.old ledger.old (call_of command.entry) result self.new ledger.new }
    {
        self.table.perform(command, ledger)
    }

    /// Runs a sheet from the reading place on, and returns how the run ended, as `running::run` does.
    pub fn run(
        &mut self,
        reader: &mut Reader<'_>,
        rolls: &mut Rolls<'_, '_>,
    ) -> Result<Ended, Refusal>
        ensures run { SheetRun self.old reader.old.sheet.now reader.old.place.at rolls.old.ledger rolls.old.notes result self.new reader.new.place.at rolls.new.ledger rolls.new.notes }
        ensures sheet { reader.new.sheet ≡ reader.old.sheet }
    {
        running::run(&mut self.table, reader, rolls)
    }
}
