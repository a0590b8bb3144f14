//! Bytes from outside and to outside: filling a buffer from a source, writing bytes to a sink, and why either failed.
#![tactic(auto)]

/// Why a program could not read its input, hold its output or write it.
pub mod error;
/// Sinks of bytes, and writing all of some bytes to one.
pub mod sink;
/// Sources of bytes, and filling a buffer from one.
pub mod source;
#[cfg(test)]
mod tests;

// How often a call is made in a row where a signal interrupts it each time.
const TRIES: u32 = 1_000;
