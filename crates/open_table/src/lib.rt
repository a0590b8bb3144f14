// The table that programs hold: at one of the four games, and sound by its type, so that its calls ask nothing.
#![tactic(auto)]

// An open table.
pub mod open_table;

// Which of a seat's chips are summed.
pub mod part;

// The first command of a sheet, which opens the table.
pub mod first;

// A sheet from its first byte: the opening and the first run.
pub mod begun;
