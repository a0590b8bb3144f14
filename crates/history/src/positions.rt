// Where the chips of a table lie, and that they add up with what its history moved.
ghost use Rattle.std.specs.Prelude.{◌≡◌, ℕ, ◌+◌, ◌<◌, sum_by};
ghost use Rattle.books.specs.Books.{laid, chips, seat_at};

use crate::histories::History;
use game::interface::Game;

/// Where all chips of a table lie, beside what its history brought to it and took away.
#[derive(Clone, Copy, PartialEq, Eq, Debug)]
pub struct Position {
    // The tray that the table was opened with.
    pub opening_tray: u64,
    // The chips of all accepted buys and fills, and of all accepted cash-outs and draws.
    pub deposited: u128,
    pub withdrawn: u128,
    // The tray, all racks together and all spaces together.
    pub tray: u64,
    pub racks: u64,
    pub spaces: u64,
    // The chips of each seat, in its rack and on its spaces.
    pub seats: [u64; 7],
}

impl<G: Game> History<'_, G> {
    ghost use Rattle.history.specs.Positions.{position_at};

    // The chips in all racks.
    fn racks(&self) -> u64
        ensures { result ≡ sum_by (λ s. s.rack) self.now.table.books.seats }
    {
        let mut racks = 0;
        for seat in &self.table.books().seats {
            racks += seat.rack;
        }
        racks
    }

    // The chips on all spaces.
    fn spaces(&self) -> u64
        ensures { result ≡ sum_by laid self.now.table.books.seats }
    {
        let mut spaces = 0;
        for seat in &self.table.books().seats {
            spaces += seat.laid();
        }
        spaces
    }

    // The chips of one seat, by its place.
    fn chips(&self, k: usize) -> u64
        requires { k < 7 }
        ensures { result ≡ chips (seat_at self.now.table.books k) }
    {
        let seat = self.table.books().seats[k];
        seat.rack + seat.laid()
    }

    /// Returns where all chips lie now. Tray, racks and spaces with what was taken away are the opening tray with what was brought.
    pub fn position(&self) -> Position
        ensures position { result ≡ position_at G.Game self.now }
        ensures add_up { result.tray + result.racks + result.spaces + result.withdrawn ≡ result.opening_tray + result.deposited }
    {
        Position {
            opening_tray: self.opening.tray,
            deposited: self.deposited,
            withdrawn: self.withdrawn,
            tray: self.table.books().tray,
            racks: self.racks(),
            spaces: self.spaces(),
            seats: [
                self.chips(0),
                self.chips(1),
                self.chips(2),
                self.chips(3),
                self.chips(4),
                self.chips(5),
                self.chips(6),
            ],
        }
    }
}
