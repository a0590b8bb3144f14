// A table with its history. Its ghost fields import every `ghost use` of this file, so no definition that names History is cited here.
ghost use Rattle.std.specs.Prelude.{◌≡◌, ◌*◌, ◌≤◌, length};
ghost use Rattle.table.specs.Promise.{Reached};
ghost use Rattle.table.specs.Tally.{brought, taken};
ghost use Rattle.history.specs.Turns.{turns_of};
ghost use Rattle.history.specs.Single.{reached_one};

use crate::past_calls::PastCall;
use game::interface::Game;
use table::holdings::Table;
use table::opening::Opening;

/// A table at any game, what it was opened with, and all calls that were made on it since, in order.
///
/// Of every value of the type all that is promised of a history holds: see `reached`.
#[derive(Drop)]
pub struct History<'a, G: Game> {
    pub(crate) table: Table<G>,
    pub(crate) opening: Opening,
    pub(crate) calls: Vec<PastCall<'a>>,
    // Sums over the history, kept as it grows.
    pub(crate) deposited: u128,
    pub(crate) withdrawn: u128,
    pub ghost reached: { Reached (G.rules table.game) opening (turns_of (G.rules table.game) opening calls.items) table.books } by { reached_one (G.rules table.game) opening (turns_of (G.rules table.game) opening calls.items) table.books },
    pub ghost deposits: { deposited ≡ brought (turns_of (G.rules table.game) opening calls.items) },
    pub ghost withdrawals: { withdrawn ≡ taken (turns_of (G.rules table.game) opening calls.items) },
    // Each call moves less than 2^64 chips, so that the sums fit sixteen bytes.
    ghost few_deposited: { deposited ≤ length calls.items * 18446744073709551615 },
    ghost few_withdrawn: { withdrawn ≤ length calls.items * 18446744073709551615 },
}
