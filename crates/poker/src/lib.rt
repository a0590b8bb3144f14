// The two poker games, Fortune and Stud: each seat plays its own hand against the bank's.
#![tactic(auto)]

// Dealing hands to the staking seats and the bank.
pub mod dealing;

// Whether cards hold a rank.
mod ranks;

// How a round ends for a raised seat, and what ante and raise then bring.
pub mod outcome;

// A seat's stakes by their names.
mod stakes;

// What a stake brings by the seat's choice.
mod payment;

// Fortune, game 1.
pub mod fortune;

// Stud, game 2.
pub mod stud;

// Rounds worked by hand.
#[cfg(test)]
mod tests;
