// Open: a betting table with empty racks and spaces.
ghost use Rattle.std.specs.Prelude.{◌≡◌};
ghost use Rattle.refusals.specs.Refusals.{Answers};
ghost use Rattle.table.specs.Opening.{bad_bounds, open_causes, Opened};
ghost use Rattle.table.specs.Performing.{cause_in};

use crate::holdings::{LIMIT, Table};
use books::seat::Seat;
use books::stage::Stage;
use books::table_books::Books;
use game::choice::Choice;
use game::interface::Game;
use refusals::{Cause, Refusal};

/// What a table is opened with: the least and the largest stake on a space, and the chips in the tray.
#[derive(Clone, Copy, PartialEq, Eq, Debug)]
pub struct Opening {
    pub minimum: u32,
    pub maximum: u32,
    pub tray: u64,
}

// Whether the bounds of a stake are broken.
fn are_bad_bounds(minimum: u32, maximum: u32) -> bool
    ensures { result ≡ bad_bounds minimum maximum }
{
    minimum == 0 || maximum < minimum || maximum > 1_000_000
}

impl<G: Game + Drop> Table<G> {
    /// Returns a betting table with this tray, empty racks and empty spaces.
    ///
    /// Refused with 9 where the tray is above 1,000,000,000,000 chips, and with 18 unless
    /// 1 ≤ minimum ≤ maximum ≤ 1,000,000; where both hold, with 9. The refusal names no seat.
    pub fn open(game: G, opening: Opening) -> Result<Table<G>, Refusal>
        ensures opened { Opened G.Game game opening result }
        ensures least { Answers (open_causes opening) (cause_in result) }
    {
        if opening.tray > LIMIT {
            return Err(Refusal::new(Cause::TotalTooLarge, 0));
        }
        if are_bad_bounds(opening.minimum, opening.maximum) {
            return Err(Refusal::new(Cause::BadConditions, 0));
        }
        let seat = Seat {
            rack: 0,
            stakes: [0; 5],
            raised: 0,
            choice: Choice::Open,
        };
        let books = Books {
            tray: opening.tray,
            seats: [seat; 7],
            stage: Stage::Betting,
            rounds: 0,
            minimum: opening.minimum,
            maximum: opening.maximum,
        };
        Ok(Table { game, books })
    }
}
