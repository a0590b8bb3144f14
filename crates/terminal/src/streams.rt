//! One call from the first byte of a sheet to the last of its output: read from a source, settled, and written to a sink.
ghost use Rattle.std.specs.Prelude.{◌≤◌, Some, length, take};
ghost use Rattle.sheet.specs.Reading.{longest};
ghost use Rattle.byte_streams.specs.Streams.{Streams};
ghost use Rattle.terminal.specs.Printed.{PrintedOf};

use crate::settle;
use byte_streams::error::StreamError;
use byte_streams::sink::{Sink, write_all};
use byte_streams::source::{Source, fill};
use lines::printed::too_long_note;
use sheet::reading::LONGEST;
use std::alloc::Global;

// Settles a sheet, and writes what is printed of it.
#[tactic(auto, using(crate::proofs::Cutting::line_printed))]
fn settle_to<T: Sink>(alloc: Global, sink: &mut T, sheet: &[u8]) -> Result<(), StreamError>
    ensures { Streams PrintedOf longest (λ _. ⊥) T.fails_with (Some sheet.now) (T.contents sink.old) (T.contents sink.new) result }
{
    if sheet.len() > LONGEST {
        return write_all(sink, too_long_note());
    }
    let mut page = Vec::new(alloc);
    settle(&mut page, sheet)?;
    write_all(sink, &page)
}

// Settles the sheet that was read to the front of a buffer, and writes what is printed of it.
fn settle_read<T: Sink>(
    alloc: Global,
    sink: &mut T,
    buffer: &[u8],
    read: usize,
) -> Result<(), StreamError>
    requires within { read ≤ length buffer.now }
    ensures { Streams PrintedOf longest (λ _. ⊥) T.fails_with (Some (take read buffer.now)) (T.contents sink.old) (T.contents sink.new) result }
{
    settle_to(alloc, sink, &buffer[..read])
}

/// Reads a sheet to the end of a source, but no further than one byte more than a sheet may have; settles it; and writes what is printed of it to a sink.
/// Where it returns an error, the sink holds what it held if the source returned an error or there was no memory, and else a part of the output behind it.
/// A sheet that is too long needs no memory: it is refused with 22 wherever the source and the sink return no error.
pub fn settle_stream<S: Source, T: Sink>(
    alloc: Global,
    source: &mut S,
    sink: &mut T,
) -> Result<(), StreamError>
    ensures { Streams PrintedOf longest S.fails_with T.fails_with (S.remaining source.old) (T.contents sink.old) (T.contents sink.new) result }
{
    let mut buffer = EMPTY_BUFFER;
    settle_stream_by(alloc, &mut buffer, source, sink)
}

/// What a sheet is read into: one byte more than a sheet may have, so that a longer one is seen to be longer.
pub type SheetBuffer = [u8; LONGEST + 1];

/// A buffer to begin with.
pub const EMPTY_BUFFER: SheetBuffer = [0; LONGEST + 1];

/// Settles a sheet as `settle_stream` does, by a buffer that is lent: whoever settles many sheets makes it once.
pub fn settle_stream_by<S: Source, T: Sink>(
    alloc: Global,
    buffer: &mut SheetBuffer,
    source: &mut S,
    sink: &mut T,
) -> Result<(), StreamError>
    ensures { Streams PrintedOf longest S.fails_with T.fails_with (S.remaining source.old) (T.contents sink.old) (T.contents sink.new) result }
{
    let read = fill(source, buffer)?;
    settle_read(alloc, sink, buffer, read)
}
