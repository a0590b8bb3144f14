// Which of a seat's chips are summed, and a view of a seat by them.
ghost use Rattle.std.specs.Prelude.{◌≡◌, ℕ, ◌≤◌, pos};
ghost use Rattle.books.specs.Books.{chips};
ghost use Rattle.table.specs.Holdings.{limit};
ghost use Rattle.open_table.specs.Sums.{in_part};

use books::seat::Seat;
use ledger::sums::SignedAmount;

/// Which of a seat's chips: those in its rack, those on its spaces with the raise, or both.
#[derive(Clone, Copy, PartialEq, Eq, Debug)]
pub enum Part {
    Rack,
    Spaces,
    Chips,
}

/// So many chips of a seat, as an amount that the one sum takes.
#[derive(Clone, Copy, PartialEq, Eq, Debug)]
pub struct View {
    pub amount: i64,
}

impl SignedAmount for View {
    ghost amount_of = { λ v. v.amount };

    fn amount(&self) -> i64 {
        self.amount
    }
}

impl View {
    // The view of a seat by a part of its chips. It is no `From`, which could not ask that the chips are within the limit.
    pub(crate) fn new(seat: &Seat, part: Part) -> View
        requires { chips seat.now ≤ limit }
        ensures { result.amount ≡ pos (in_part part seat.now) }
    {
        let chips = match part {
            Part::Rack => seat.rack,
            Part::Spaces => seat.laid(),
            Part::Chips => seat.rack + seat.laid(),
        };
        View {
            amount: chips as i64,
        }
    }
}
