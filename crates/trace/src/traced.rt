//! A sheet traced from its first byte to its last: read from a source, performed, and its trace written to a sink.
ghost use Rattle.std.specs.Prelude.{◌≤◌, Some, length, OnOk};
ghost use Rattle.sheet.specs.Reading.{longest};
ghost use Rattle.byte_streams.specs.Streams.{Streams};
ghost use Rattle.trace.specs.Traced.{TraceOf, Traced};

use crate::opening::first_command;
use crate::steps::print_position;
use crate::tracing::trace_commands;
use byte_streams::error::StreamError;
use byte_streams::sink::{Sink, write_all};
use byte_streams::source::{Source, fill};
use ledger::entries::Entry;
use ledger::rolls::Roll;
use lines::printed::{Printed, too_long_note};
use sheet::reader::Reader;
use sheet::reading::LONGEST;
use std::alloc::{AllocError, Global};

// The ledger has so many places and is emptied before each command, so that none is ever wanting.
const PLACES: usize = 7;

const NO_ENTRY: Entry = Entry {
    round: 0,
    seat: 0,
    staked: 0,
    returned: 0,
    net: 0,
};

// Prints the trace of a sheet to the end of a page; where an allocation fails, part of it may be printed.
fn trace(alloc: Global, page: &mut Vec<u8>, sheet: &[u8]) -> Result<(), AllocError>
    requires { length sheet.now ≤ longest }
    ensures { OnOk result (Traced sheet.now page.old.items page.new.items) }
{
    let mut entries = [NO_ENTRY; PLACES];
    let mut ledger = Roll::new(&mut entries);
    let mut reader = Reader::new(sheet);
    match first_command(alloc, &mut reader) {
        Ok(Some(mut history)) => {
            print_position(page, history.position())?;
            trace_commands(page, &mut reader, &mut history, &mut ledger)
        }
        Ok(None) => Ok(()),
        Err(note) => note.print(page),
    }
}

// Traces a sheet, and writes its trace.
#[tactic(auto, using(crate::proofs::Whole::line_traced))]
fn trace_to<T: Sink>(alloc: Global, sink: &mut T, sheet: &[u8]) -> Result<(), StreamError>
    ensures { Streams TraceOf longest (λ _. ⊥) T.fails_with (Some sheet.now) (T.contents sink.old) (T.contents sink.new) result }
{
    if sheet.len() > LONGEST {
        return write_all(sink, too_long_note());
    }
    let mut page = Vec::new(alloc);
    trace(alloc, &mut page, sheet)?;
    write_all(sink, &page)
}

/// Reads a sheet to the end of a source, but no further than one byte more than a sheet may have; performs it; and writes its trace to a sink.
/// What an error leaves is as with a sheet that is settled: nothing where reading or an allocation failed, and else a part of the trace.
pub fn trace_stream<S: Source, T: Sink>(
    alloc: Global,
    source: &mut S,
    sink: &mut T,
) -> Result<(), StreamError>
    ensures { Streams TraceOf longest S.fails_with T.fails_with (S.remaining source.old) (T.contents sink.old) (T.contents sink.new) result }
{
    // one byte more than a sheet may have, so that a longer one is seen to be longer
    let mut buffer = [0u8; LONGEST + 1];
    let read = fill(source, &mut buffer)?;
    trace_to(alloc, sink, &buffer[..read])
}
