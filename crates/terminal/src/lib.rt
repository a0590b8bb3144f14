// The terminal: a sheet settled from its first byte to its last, and the page that is printed of it.
#![tactic(auto)]

ghost use Rattle.std.specs.Prelude.{◌≡◌, ℕ, ◌≤◌, List, [], ◌++◌, length, Ok, is_ok, if◌then◌else◌, OnOk, OnErr};
ghost use Rattle.std.specs.List.{concat};
ghost use Rattle.ledger.specs.Rolls.{kept};
ghost use Rattle.lines.specs.Lines.{printed_closing};
ghost use Rattle.sheet.specs.Reading.{longest};
ghost use Rattle.open_table.specs.Sums.{closing_of};
ghost use Rattle.open_table.specs.Tables.{rules_at, books_at, SheetRun};
ghost use Rattle.terminal.specs.SheetLines.{run_lines};
ghost use Rattle.terminal.specs.Printed.{OneText};
ghost use Rattle.terminal.specs.Pages.{Emptied, Ready, runs_after, lines_after, LedOn, PrintedInPart, Page, PageInPart};

use ledger::entries::Entry;
use ledger::notes::Note;
use ledger::rolls::Roll;
use lines::printed::{Printed, print_all};
use open_table::begun::{Begun, begin};
use open_table::open_table::OpenTable;
use refusals::{Cause, Refusal};
use run::ended::Ended;
use run::rolls::Rolls;
use sheet::reader::Reader;
use std::alloc::AllocError;

// A sheet taken from any reader of bytes, and settled to any writer.
pub mod streams;
#[cfg(test)]
mod tests;

// The places of each roll; after an early stop both are printed, emptied and used again.
const PLACES: usize = 256;

const NO_ENTRY: Entry = Entry {
    round: 0,
    seat: 0,
    staked: 0,
    returned: 0,
    net: 0,
};

const NO_NOTE: Note = Note {
    place: 0,
    refusal: Refusal {
        cause: Cause::WrongStage,
        seat: 0,
    },
};

// Prints what a run wrote, entries before notes, and empties both rolls.
fn print_run(page: &mut Vec<u8>, rolls: &mut Rolls<'_, '_>) -> Result<(), AllocError>
    ensures printed { OnOk result (page.new.items ≡ page.old.items ++ concat (run_lines (kept rolls.old.ledger) (kept rolls.old.notes))) }
    ensures ledger { OnOk result (Emptied rolls.old.ledger rolls.new.ledger) }
    ensures notes { OnOk result (Emptied rolls.old.notes rolls.new.notes) }
    ensures in_part { OnErr result (PrintedInPart (run_lines (kept rolls.old.ledger) (kept rolls.old.notes)) page.old.items page.new.items) }
{
    print_all(page, rolls.ledger.records())?;
    print_all(page, rolls.notes.records())?;
    rolls.ledger.clear();
    rolls.notes.clear();
    Ok(())
}

// Runs the sheet further, and returns how the run ended.
#[tactic(auto, using(crate::proofs::Parts::ran_well))]
fn run_further(table: &mut OpenTable, reader: &mut Reader<'_>, rolls: &mut Rolls<'_, '_>) -> Ended
    requires short { length reader.old.sheet.now ≤ longest }
    ensures run { SheetRun table.old reader.old.sheet.now reader.old.place.at rolls.old.ledger rolls.old.notes (Ok result) table.new reader.new.place.at rolls.new.ledger rolls.new.notes }
    ensures sheet { reader.new.sheet ≡ reader.old.sheet }
{
    // a sheet whose first command was read is not too long
    table.run(reader, rolls).unwrap()
}

// Prints the closing line. `Err` where an allocation failed: then the page stays as it was.
fn print_closing(page: &mut Vec<u8>, table: &OpenTable) -> Result<(), AllocError>
    ensures { page.new.items ≡ (if is_ok result then page.old.items ++ printed_closing (closing_of (books_at table.now)) else page.old.items) }
{
    table.closing().print(page)
}

// Runs the sheet further as long as runs stop early, with empty rolls each time, and prints each run and then the closing line.
// The sheet's length is asked as by a step of a run.
fn go_on(
    page: &mut Vec<u8>,
    reader: &mut Reader<'_>,
    begun: Begun,
    rolls: &mut Rolls<'_, '_>,
) -> Result<(), AllocError>
    requires short { length reader.old.sheet.now ≤ longest }
    requires ready { Ready rolls.old.ledger rolls.old.notes }
    ensures printed { OnOk result (page.new.items ≡ page.old.items ++ concat (lines_after (rules_at begun.table) reader.old.sheet.now begun.ended (books_at begun.table) reader.old.place.at)) }
    ensures led_on { OnOk result (LedOn (rules_at begun.table) reader.old.sheet.now (books_at begun.table) reader.old.place.at begun.ended (runs_after (rules_at begun.table) reader.old.sheet.now begun.ended (books_at begun.table) reader.old.place.at)) }
    ensures in_part { OnErr result (PrintedInPart (lines_after (rules_at begun.table) reader.old.sheet.now begun.ended (books_at begun.table) reader.old.place.at) page.old.items page.new.items) }
{
    let Begun {
        mut table,
        mut ended,
    } = begun;
    while let Ended::NoRoom = ended {
        ended = run_further(&mut table, reader, rolls);
        print_run(page, rolls)?;
    }
    print_closing(page, &table)
}

/// Settles a sheet from its first byte, and prints what is printed of it to the end of a page.
///
/// `Err` where an allocation failed: then the page has grown by the first few of those lines, each whole, and at least the last is missing.
/// So a sheet of which nothing is printed is never an error.
pub fn settle(page: &mut Vec<u8>, sheet: &[u8]) -> Result<(), AllocError>
    ensures printed { OnOk result (Page sheet.now page.old.items page.new.items) }
    ensures one_text { OneText sheet.now }
    ensures in_part { OnErr result (PageInPart sheet.now page.old.items page.new.items) }
{
    let mut entries = [NO_ENTRY; PLACES];
    let mut notes = [NO_NOTE; PLACES];
    let mut rolls = Rolls {
        ledger: Roll::new(&mut entries),
        notes: Roll::new(&mut notes),
    };
    let mut reader = Reader::new(sheet);
    match begin(&mut reader, &mut rolls) {
        Ok(Some(begun)) => {
            print_run(page, &mut rolls)?;
            go_on(page, &mut reader, begun, &mut rolls)
        }
        Ok(None) => Ok(()),
        Err(note) => note.print(page),
    }
}
