// Grades hands: a line of standard input is one hand of three or five cards, or two with a bar between them.
#![tactic(auto)]

mod answers; // The answer for one hand or two.
mod faults; // Why a line has no answer.
mod first_cards; // The first cards of a hand that is typed.
mod hand; // A hand as it is typed.
mod input; // An input as it is read.
mod line; // A line as it is typed.
mod streams; // Lines from a source, answers to a sink.
mod words; // Cards as people write them.
#[cfg(test)]
mod tests; // Inputs of any bytes.

use anyhow::Result;
use byte_streams::sink::ToWriter;
use byte_streams::source::FromReader;
use streams::grade_lines;

fn main(rt: HostRuntime) -> Result<()> {
    grade_lines(
        rt.alloc(),
        &mut FromReader(rt.stdin()),
        &mut ToWriter(rt.stdout()),
    )?;
    Ok(())
}
