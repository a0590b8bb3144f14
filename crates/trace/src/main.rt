//! Performs the sheet on standard input and writes its trace to standard output: what each command did, and where all chips lie then.
#![tactic(auto)]

/// The first command of a sheet, which opens the table that is traced.
mod opening;
/// What is printed of one command.
mod steps;
/// A sheet traced from its first byte to its last.
mod traced;
/// The commands of a sheet, performed one after another.
mod tracing;

use anyhow::Result;
use byte_streams::sink::ToWriter;
use byte_streams::source::FromReader;
use traced::trace_stream;

fn main(rt: HostRuntime) -> Result<()> {
    trace_stream(
        rt.alloc(),
        &mut FromReader(rt.stdin()),
        &mut ToWriter(rt.stdout()),
    )?;
    Ok(())
}
