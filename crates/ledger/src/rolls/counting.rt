// Counting the records of a seat. This is what demands that a record names one.
ghost use Rattle.std.specs.Prelude.{◌≡◌};
ghost use Rattle.ledger.specs.Rolls.{kept, count_of};

use crate::rolls::Roll;
use crate::seated::NamesSeat;

impl<R: NamesSeat + Drop> Roll<'_, R> {
    // How many of the kept records name this seat.
    pub fn count_of(&self, seat: u8) -> usize
        ensures { result ≡ count_of R.seat_of seat (kept self.now) }
    {
        self.records()
            .iter()
            .filter(|record| record.seat() == seat)
            .count()
    }
}
