// The ledger: rolls of records over lent slices, the records that lie in them, and their sums.
#![tactic(auto)]

// A kind of record that names a seat.
pub mod seated;

// A roll: records in order, over a slice that the caller lends.
pub mod rolls;

// The sum of the signed amounts of records.
pub mod sums;

// Entries: what a seat staked and got back in a round.
pub mod entries;

// Notes: what was refused, and at which place of the sheet.
pub mod notes;

// The closing line: where the chips lie at the end.
pub mod closings;
#[cfg(test)]
mod tests;
