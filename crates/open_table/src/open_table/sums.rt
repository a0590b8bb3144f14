// Where an open table's chips lie: the seats' by the one sum, and all of them at the close.
ghost use Rattle.std.specs.Prelude.{◌≡◌, ℕ, ◌+◌, ◌<◌, pos, Ok, sum_by};
ghost use Rattle.ledger.specs.Sums.{summed};
ghost use Rattle.books.specs.Books.{seat_at};
ghost use Rattle.table.specs.Holdings.{total};
ghost use Rattle.open_table.specs.Sums.{in_part, closing_of};
ghost use Rattle.open_table.specs.Tables.{books_at};

use super::OpenTable;
use crate::part::{Part, View};
use ledger::closings::Closing;
use ledger::sums::sum;
use refusals::Refusal;
use std::array;

impl OpenTable {
    // The view of one seat, counted from 0.
    fn view_at(&self, k: usize, part: Part) -> View
        requires { k < 7 }
        ensures { result.amount ≡ pos (in_part part (seat_at (books_at self.now) k)) }
    {
        View::new(&self.table.books().seats[k], part)
    }

    /// Returns the sum of all seats by a part of their chips, in chips. No open table holds so much that it is refused.
    pub fn sum_of_seats(&self, part: Part) -> Result<i64, Refusal>
        ensures summed { result ≡ summed (λ s. pos (in_part part s)) (books_at self.now).seats }
        ensures exact { result ≡ Ok (pos (sum_by (in_part part) (books_at self.now).seats)) }
    {
        // By place: what a closure over the seats asks of each of them was not found.
        let views: [View; 7] = array::from_fn(|k| self.view_at(k, part));
        sum(&views)
    }

    // The same as a number of chips.
    fn chips_in(&self, part: Part) -> u64
        ensures { result ≡ sum_by (in_part part) (books_at self.now).seats }
    {
        self.sum_of_seats(part).unwrap() as u64
    }

    /// Returns where all chips lie, in chips: tray, racks and spaces. Together they are the table's total.
    pub fn closing(&self) -> Closing
        ensures closing { result ≡ closing_of (books_at self.now) }
        ensures total { result.tray + result.racks + result.spaces ≡ total (books_at self.now) }
    {
        Closing {
            tray: self.table.books().tray,
            racks: self.chips_in(Part::Rack),
            spaces: self.chips_in(Part::Spaces),
        }
    }
}
