// Counts the classes of all hands of three and of five cards from one pack.
#![tactic(auto)]

mod counts; // Counting hands by their classes.
mod tally; // Counts by class while hands are counted one after another.
#[cfg(test)]
mod tests; // What is said of each failure.

use counts::{Failure, count_all};
use grading::{FiveHand, HandClass, ThreeHand};
use std::collections::BTreeMap;
use std::io;
use std::io::{BufWriter, Write};
use std::process::ExitCode;

// A line for each class, downward.
fn print<K: HandClass>(
    out: &mut BufWriter<io::Stdout>,
    size: &str,
    census: &BTreeMap<K, u32>,
) -> io::Result<()> {
    for (class, count) in census.iter().rev() {
        writeln!(out, "{size} cards, {class}: {count}")?;
    }
    Ok(())
}

// The counts of three and of five cards, printed through a buffer.
fn run(rt: &HostRuntime) -> Result<(), Failure> {
    let threes = count_all::<ThreeHand>(rt.alloc(), &mut [0; 3])?;
    let fives = count_all::<FiveHand>(rt.alloc(), &mut [0; 5])?;
    let Ok(mut out) = BufWriter::new(rt.alloc(), rt.stdout()) else {
        return Err(Failure::Memory);
    };
    print(&mut out, "three", &threes)?;
    print(&mut out, "five", &fives)?;
    out.flush()?;
    Ok(())
}

fn main(rt: HostRuntime) -> ExitCode {
    match run(&rt) {
        Ok(()) => ExitCode::SUCCESS,
        Err(failure) => {
            let _ = eprintln!(rt; "census: {failure}");
            ExitCode::FAILURE
        }
    }
}
