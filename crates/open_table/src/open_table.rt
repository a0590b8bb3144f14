// An open table at one of the games, which programs hold.
use games::any_game::AnyGame;
use table::holdings::Table;

pub mod calls; // Opening a table, performing a command, and running a sheet.
pub mod sums; // Where its chips lie, by the one sum.

/// An open table at one of the four games, which keeps its promises by its type.
#[derive(Drop)]
pub struct OpenTable {
    table: Table<AnyGame>,
}
