// The table: one game's table with its tray and seven seats, and the calls that move chips on it.
#![tactic(auto)]

pub mod holdings; // What a table holds, as sums over its seats.
mod buying; // Buy, Cash, Fill and Draw.
mod betting; // Bet and Deal.
mod choosing; // Raise and Leave.
mod ending; // Settle and Void.
pub mod opening; // Open.
mod performing; // One command, decided by stage and command together.
