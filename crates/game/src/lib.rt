// What makes a game, as the table knows it: what it tells, and what it promises.
#![tactic(auto)]

// A seat's choice after the deal.
pub mod choice;

// Whether a space takes a stake.
pub mod taking;

// A deal: the staking seats and the cards.
pub mod deal;

// Whether cards are a lawful deal.
pub mod dealing;

// What a game asks of its conditions.
pub mod opening;

// Odds of n to 1.
pub mod odds;

// The interface that every game stands behind.
pub mod interface;
