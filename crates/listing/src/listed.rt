//! A sheet's commands, a line for each: read from a source, and written to a sink.
ghost use Rattle.std.specs.Prelude.{◌≡◌, ◌≤◌, ◌∷◌, ◌++◌, Some, decimal, length, take, refl, is_ok, if◌then◌else◌, OnOk, OnErr};
ghost use Rattle.lines.specs.Lines.{with_feed, lines_of, InPart};
ghost use Rattle.sheet.specs.Items.{fault, items_of};
ghost use Rattle.sheet.specs.Reading.{longest};
ghost use Rattle.byte_streams.specs.Streams.{Streams};
ghost use Rattle.listing.specs.Listing.{line_of, Listing};

use byte_streams::error::StreamError;
use byte_streams::sink::{Sink, write_all};
use byte_streams::source::{Source, fill};
use ledger::notes::Note;
use lines::printed::{Displayed, Printed, too_long_note};
use refusals::Refusal;
use sheet::reader::Reader;
use sheet::reading::LONGEST;
use std::alloc::{AllocError, Global};
use std::fmt;

// A command that was read: its place and the word for it.
#[derive(Clone, Copy)]
struct Listed {
    place: usize,
    name: &'static str,
}

impl fmt::Display for Listed {
    ghost output = { λ l. Some (decimal l.place ++ 32 ∷ l.name.now) };

    fn fmt<W: fmt::Write>(&self, f: &mut fmt::Formatter<W>) -> fmt::Result {
        write!(f, "{} {}", self.place, self.name)
    }
}

impl Displayed for Listed {
    ghost shown_as = { λ l. with_feed (decimal l.place ++ 32 ∷ l.name.now) };

    ghost displayed = { λ _. refl };
}

// Prints the note of a refusal to read. `Err` where an allocation failed: then the page stays as it was.
fn print_fault(page: &mut Vec<u8>, place: usize, refusal: Refusal) -> Result<(), AllocError>
    ensures { page.new.items ≡ (if is_ok result then page.old.items ++ line_of (fault place refusal) else page.old.items) }
{
    Note { place, refusal }.print(page)
}

// Prints a line for each command, and at last why none could be read, if that is how it ends. `Err` where an allocation failed: then the first few lines are printed, each whole, and not all.
fn list_commands(page: &mut Vec<u8>, sheet: &[u8]) -> Result<(), AllocError>
    requires { length sheet.now ≤ longest }
    ensures listed { OnOk result (page.new.items ≡ page.old.items ++ lines_of line_of (items_of sheet.now 0)) }
    ensures in_part { OnErr result (InPart line_of (items_of sheet.now 0) page.old.items page.new.items) }
{
    let mut reader = Reader::new(sheet);
    loop {
        let place = reader.place.at;
        match reader.read() {
            Ok(Some(command)) => {
                let name = command.name();
                Listed { place, name }.print(page)?;
            }
            Ok(None) => return Ok(()),
            Err(refusal) => return print_fault(page, place, refusal),
        }
    }
}

// Lists the commands of a sheet, and writes the lines.
#[tactic(auto, using(crate::proofs::Listing::line_listed))]
fn list_to<T: Sink>(alloc: Global, sink: &mut T, sheet: &[u8]) -> Result<(), StreamError>
    ensures { Streams Listing longest (λ _. ⊥) T.fails_with (Some sheet.now) (T.contents sink.old) (T.contents sink.new) result }
{
    if sheet.len() > LONGEST {
        return write_all(sink, too_long_note());
    }
    let mut page = Vec::new(alloc);
    list_commands(&mut page, sheet)?;
    write_all(sink, &page)
}

// Lists the commands of the sheet that was read to the front of a buffer.
fn list_read<T: Sink>(
    alloc: Global,
    sink: &mut T,
    buffer: &[u8],
    read: usize,
) -> Result<(), StreamError>
    requires within { read ≤ length buffer.now }
    ensures { Streams Listing longest (λ _. ⊥) T.fails_with (Some (take read buffer.now)) (T.contents sink.old) (T.contents sink.new) result }
{
    list_to(alloc, sink, &buffer[..read])
}

/// Reads a sheet to the end of a source, but no further than one byte more than a sheet may have, and writes a line for each of its commands to a sink: the place and the name.
/// Where a command cannot be read, the last line is the note of its refusal. What an error leaves is as with a sheet that is settled.
pub fn list_stream<S: Source, T: Sink>(
    alloc: Global,
    source: &mut S,
    sink: &mut T,
) -> Result<(), StreamError>
    ensures { Streams Listing longest S.fails_with T.fails_with (S.remaining source.old) (T.contents sink.old) (T.contents sink.new) result }
{
    // one byte more than a sheet may have, so that a longer one is seen to be longer
    let mut buffer = [0u8; LONGEST + 1];
    let read = fill(source, &mut buffer)?;
    list_read(alloc, sink, &buffer, read)
}
