//! The first command of a sheet, which opens the table that is traced.
ghost use Rattle.std.specs.Prelude.{◌≡◌, Some, None, Ok, IfOk, IfErr, IfSome, IfNone};
ghost use Rattle.refusals.specs.Refusals.{first_cause};
ghost use Rattle.open_table.specs.Firsts.{first_refusal};
ghost use Rattle.open_table.specs.Tables.{opening_causes};
ghost use Rattle.sheet.specs.Reading.{read_at};
ghost use Rattle.table.specs.Opening.{refused_by};
ghost use Rattle.trace.specs.Begun.{Begun, BegunAt};

use commands::{Command, Conditions};
use games::any_game::AnyGame;
use history::histories::History;
use ledger::notes::Note;
use refusals::{Cause, Refusal};
use sheet::reader::Reader;
use std::alloc::Global;
use table::holdings::LIMIT;
use table::opening::Opening;

/// Returns a table at one of the four games, on which no call was made yet.
///
/// Refused with 9 where the tray is above the limit, and with 18 where conditions or bounds are broken; where both hold, with 9.
pub(crate) fn open<'a>(
    alloc: Global,
    conditions: Conditions,
    tray: u64,
) -> Result<History<'a, AnyGame>, Refusal>
    ensures opened { IfOk result (λ h. Begun conditions tray h.table.game h.opening h.calls.items h.table.books) }
    ensures refused { IfErr result (λ e. Some e ≡ refused_by (first_cause (opening_causes conditions tray))) }
{
    if tray > LIMIT {
        return Err(Refusal::new(Cause::TotalTooLarge, 0));
    }
    let game = AnyGame::new(conditions.game, conditions.cap, conditions.odds)?;
    let opening = Opening {
        minimum: conditions.minimum,
        maximum: conditions.maximum,
        tray,
    };
    History::open(alloc, game, opening)
}

/// Reads the first command and opens its table: `None` where there is no command, and `Err` with the note of why none was opened.
pub(crate) fn first_command<'a>(
    alloc: Global,
    reader: &mut Reader<'a>,
) -> Result<Option<History<'a, AnyGame>>, Note>
    ensures opened { IfOk result (λ o. IfSome o (λ h. BegunAt reader.old.sheet.now reader.old.place.at h.table.game h.opening h.calls.items h.table.books reader.new.place.at)) }
    ensures nothing { IfOk result (λ o. IfNone o (read_at reader.old.sheet.now reader.old.place.at ≡ Ok None)) }
    ensures place { IfErr result (λ note. note.place ≡ reader.old.place.at) }
    ensures refused { IfErr result (λ note. Some note.refusal ≡ first_refusal (read_at reader.old.sheet.now reader.old.place.at)) }
    ensures sheet { reader.new.sheet ≡ reader.old.sheet }
{
    let place = reader.place.at;
    let command = match reader.read() {
        Ok(Some(command)) => command,
        Ok(None) => return Ok(None),
        Err(refusal) => return Err(Note { place, refusal }),
    };
    let Command::Open { conditions, tray } = command else {
        let refusal = Refusal::new(Cause::WrongStage, command.seat());
        return Err(Note { place, refusal });
    };
    match open(alloc, conditions, tray) {
        Ok(history) => Ok(Some(history)),
        Err(refusal) => Err(Note { place, refusal }),
    }
}
