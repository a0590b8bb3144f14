//! Settles the worked sheets that are named, one after another, each under its name.
#![tactic(auto)]

ghost use Rattle.byte_streams.specs.Streams.{WritesAll};
ghost use Rattle.worked.specs.Named.{name_line, NamedStreams};

use anyhow::Result;
use byte_streams::error::StreamError;
use byte_streams::sink::{Sink, ToWriter, write_all};
use byte_streams::source::{FromReader, Source};
use std::alloc::Global;
use std::env;
use std::fs::File;
use std::io::{BufWriter, Write};
use terminal::streams::{EMPTY_BUFFER, SheetBuffer, settle_stream_by};

// Writes the line of a name.
#[tactic(auto, using(crate::proofs::Naming::writes_then))]
fn write_name<T: Sink>(sink: &mut T, name: &str) -> Result<(), StreamError>
    ensures { WritesAll T.fails_with (T.contents sink.old) (T.contents sink.new) (name_line name.now) result }
{
    write_all(sink, b"== ")?;
    write_all(sink, name.as_bytes())?;
    write_all(sink, b"\n")
}

// Writes the name of a sheet, and then what is printed of it.
// Where it returns an error, the line of the name stands alone if the source returned an error or there was no memory, and else a part of the output was written.
#[tactic(auto, using(crate::proofs::Naming::named))]
fn settle_named<S: Source, T: Sink>(
    alloc: Global,
    buffer: &mut SheetBuffer,
    name: &str,
    source: &mut S,
    sink: &mut T,
) -> Result<(), StreamError>
    ensures { NamedStreams name.now S.fails_with T.fails_with (S.remaining source.old) (T.contents sink.old) (T.contents sink.new) result }
{
    write_name(sink, name)?;
    settle_stream_by(alloc, buffer, source, sink)
}

// Sheets are many and most of them short, so what is written of them is gathered; where an error ends the program, what was gathered is still written, as far as the output takes it.
fn main(rt: HostRuntime) -> Result<()> {
    let mut buffer = EMPTY_BUFFER;
    let mut sink = ToWriter(BufWriter::new(rt.alloc(), rt.stdout())?);
    for name in env::args(&rt)?.skip(1) {
        let file = File::open(&rt, name.as_str()).map_err(StreamError::Reading)?;
        let mut source = FromReader(file);
        settle_named(
            rt.alloc(),
            &mut buffer,
            name.as_str(),
            &mut source,
            &mut sink,
        )?;
    }
    sink.0.flush().map_err(StreamError::Writing)?;
    Ok(())
}
