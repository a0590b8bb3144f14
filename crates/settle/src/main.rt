//! Settles the sheet on standard input and writes its ledger to standard output.
#![tactic(auto)]

use anyhow::Result;
use byte_streams::sink::ToWriter;
use byte_streams::source::FromReader;
use terminal::streams::settle_stream;

fn main(rt: HostRuntime) -> Result<()> {
    settle_stream(
        rt.alloc(),
        &mut FromReader(rt.stdin()),
        &mut ToWriter(rt.stdout()),
    )?;
    Ok(())
}
