// The books of a table: what it holds, apart from the game it is played by.
use crate::seat::Seat;
use crate::stage::Stage;

// `rounds` counts the deals. A stake is from `minimum` to `maximum`, which stand apart as in the conditions that a sheet names.
#[derive(Clone, Copy)]
pub struct Books {
    pub tray: u64,
    pub seats: [Seat; 7],
    pub stage: Stage,
    pub rounds: u32,
    pub minimum: u32,
    pub maximum: u32,
}
