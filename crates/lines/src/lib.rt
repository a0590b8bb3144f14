// The lines that are printed of entries, of notes and at the close.
#![tactic(auto)]

// What is printed as a line, and many of its kind.
pub mod printed;
#[cfg(test)]
mod tests;
