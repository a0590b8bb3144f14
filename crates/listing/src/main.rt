//! Lists the commands of the sheet on standard input with their places, and says why reading stopped.
#![tactic(auto)]

/// A sheet's commands, a line for each.
mod listed;
#[cfg(test)]
mod tests;

use anyhow::Result;
use byte_streams::sink::ToWriter;
use byte_streams::source::FromReader;
use listed::list_stream;

fn main(rt: HostRuntime) -> Result<()> {
    list_stream(
        rt.alloc(),
        &mut FromReader(rt.stdin()),
        &mut ToWriter(rt.stdout()),
    )?;
    Ok(())
}
