// A sheet performed on a table of any game, command by command, with what is printed of each.
ghost use Rattle.std.specs.Prelude.{◌≡◌, ℕ, ◌≤◌, ◌++◌, length, OnOk};
ghost use Rattle.commands.specs.Calls.{call_of};
ghost use Rattle.ledger.specs.Rolls.{kept, places};
ghost use Rattle.history.specs.Histories.{rules_at, turns_at};
ghost use Rattle.sheet.specs.Reading.{longest};
ghost use Rattle.trace.specs.Traces.{Stepped, step_text, text_from, turn_on};

use crate::steps::{Step, print_position};
use commands::Command;
use game::interface::Game;
use history::histories::History;
use ledger::entries::Entry;
use ledger::notes::Note;
use ledger::rolls::Roll;
use lines::printed::{Printed, print_all};
use sheet::reader::Reader;
use std::alloc::AllocError;

/// Performs one command with the ledger emptied first, and prints it with its answer, the entries that it wrote, and where the chips lie then.
pub(crate) fn step<'a, G: Game>(
    page: &mut Vec<u8>,
    place: usize,
    command: Command<'a>,
    history: &mut History<'a, G>,
    ledger: &mut Roll<'_, Entry>,
) -> Result<(), AllocError>
    ensures printed { OnOk result (page.new.items ≡ page.old.items ++ step_text (rules_at G.Game history.old) history.old.opening (places ledger.old) (turns_at G.Game history.old) history.old.table.books place (call_of command.entry)) }
    ensures history { OnOk result (Stepped G.Game history.old (places ledger.old) (call_of command.entry) history.new) }
    ensures places { places ledger.new ≡ places ledger.old }
    ensures ledger { OnOk result (kept ledger.new ≡ (turn_on (rules_at G.Game history.old) history.old.opening (places ledger.old) history.old.table.books (call_of command.entry)).entries) }
{
    ledger.clear();
    let answer = history.perform(command, ledger)?;
    Step {
        place,
        name: command.name(),
        answer,
    }
    .print(page)?;
    print_all(page, ledger.records())?;
    print_position(page, history.position())
}

/// Performs the commands from the reader's place on, as `step` does, until the sheet ends or one cannot be read, which is noted.
pub(crate) fn trace_commands<'a, G: Game>(
    page: &mut Vec<u8>,
    reader: &mut Reader<'a>,
    history: &mut History<'a, G>,
    ledger: &mut Roll<'_, Entry>,
) -> Result<(), AllocError>
    requires { length reader.old.sheet.now ≤ longest }
    ensures { OnOk result (page.new.items ≡ page.old.items ++ text_from G.Game history.old (places ledger.old) reader.old.sheet.now reader.old.place.at) }
{
    loop {
        let place = reader.place.at;
        match reader.read() {
            Ok(Some(command)) => step(page, place, command, history, ledger)?,
            Ok(None) => return Ok(()),
            Err(refusal) => return Note { place, refusal }.print(page),
        }
    }
}
