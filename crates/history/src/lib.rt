// A table at any game with the history of all calls that were made on it since it was opened.
#![tactic(auto)]

pub mod past_calls; // One call of a history.
pub mod histories; // A table with its history.
mod performing; // Opening, and performing a call.
pub mod positions; // Where the chips lie, and that they add up.
