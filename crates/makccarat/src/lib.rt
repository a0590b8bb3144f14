// Makccarat, games 3 and 4: player and banker, who add cards by their totals, in a first and a second way.
#![tactic(auto)]

// Lists of cards, and what a card counts.
pub mod card;

// The two sides.
pub mod side;

// The two ways of adding a card.
pub mod way;

// A round: first totals, added cards, final totals, who wins, pairs.
pub mod round;

// The deal at the front of a longer row of cards.
pub mod front;

// A way with its odds.
pub mod posted;

// Opening: the conditions that a way asks.
pub mod opening;

// What a space returns, and what it may cost the bank.
pub mod payment;

// The game that the table knows.
pub mod telling;

// A deal on which the two ways part.
pub mod checked;

// Rounds worked by hand.
#[cfg(test)]
mod tests;
