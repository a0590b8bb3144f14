// The four games, as the one type that programs hold.
#![tactic(auto)]

// The games.
pub mod any_game;

// Opening a game by its number.
pub mod opening;

// The game that the table knows.
pub mod telling;

// Deals that were worked by hand.
pub mod checked;

// Rounds at games opened by their number.
#[cfg(test)]
mod tests;
