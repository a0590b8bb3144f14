// Buy, Cash, Fill and Draw: chips that come to the table and leave it.
ghost use Rattle.std.specs.Prelude.{◌≡◌, ◌-◌, ◌<◌, true, false, IfOk, IfErr};
ghost use Rattle.refusals.specs.declared.Cause.TheVariants.{NoSuchSeat};
ghost use Rattle.refusals.specs.Refusals.{refused};
ghost use Rattle.commands.specs.Calls.{Buy, Cash, Fill, Draw};
ghost use Rattle.table.specs.Calls.{Did};
ghost use Rattle.table.specs.Holdings.{bad_seat};

use crate::holdings::{LIMIT, Table};
use game::interface::Game;
use refusals::{Cause, Refusal};

// The place of the seat with this number, or the refusal of a number that no seat has.
pub(crate) fn place_of(seat: u8) -> Result<usize, Refusal>
    ensures ok { IfOk result (λ place. (bad_seat seat ≡ false) × (place ≡ seat - 1) × (place < 7)) }
    ensures err { IfErr result (λ e. (bad_seat seat ≡ true) × (e ≡ refused NoSuchSeat seat)) }
{
    if seat == 0 || seat > 7 {
        return Err(Refusal::new(Cause::NoSuchSeat, seat));
    }
    Ok(usize::from(seat) - 1)
}

impl<G: Game> Table<G> {
    // Adds chips to a rack.
    pub(crate) fn buy(&mut self, seat: u8, amount: u64) -> Result<(), Refusal>
        ensures did { Did (G.rules self.old.game) self.old.books (Buy seat amount) 0 result self.new.books }
        ensures game { self.new.game ≡ self.old.game }
    {
        let place = place_of(seat)?;
        if amount == 0 {
            return Err(Refusal::new(Cause::BadAmount, seat));
        }
        if amount > LIMIT - self.total() {
            return Err(Refusal::new(Cause::TotalTooLarge, seat));
        }
        self.books.seats[place].rack += amount;
        Ok(())
    }

    // Takes chips from a rack.
    pub(crate) fn cash(&mut self, seat: u8, amount: u64) -> Result<(), Refusal>
        ensures did { Did (G.rules self.old.game) self.old.books (Cash seat amount) 0 result self.new.books }
        ensures game { self.new.game ≡ self.old.game }
    {
        let place = place_of(seat)?;
        if amount == 0 {
            return Err(Refusal::new(Cause::BadAmount, seat));
        }
        if self.books.seats[place].rack < amount {
            return Err(Refusal::new(Cause::RackTooSmall, seat));
        }
        self.books.seats[place].rack -= amount;
        Ok(())
    }

    // Adds chips to the tray.
    pub(crate) fn fill(&mut self, amount: u64) -> Result<(), Refusal>
        ensures did { Did (G.rules self.old.game) self.old.books (Fill amount) 0 result self.new.books }
        ensures game { self.new.game ≡ self.old.game }
    {
        if amount == 0 {
            return Err(Refusal::new(Cause::BadAmount, 0));
        }
        if amount > LIMIT - self.total() {
            return Err(Refusal::new(Cause::TotalTooLarge, 0));
        }
        self.books.tray += amount;
        Ok(())
    }

    // Takes chips from the tray, as far as the ceilings stay covered.
    pub(crate) fn draw(&mut self, amount: u64) -> Result<(), Refusal>
        ensures did { Did (G.rules self.old.game) self.old.books (Draw amount) 0 result self.new.books }
        ensures game { self.new.game ≡ self.old.game }
    {
        if amount == 0 {
            return Err(Refusal::new(Cause::BadAmount, 0));
        }
        if amount > self.books.tray - self.ceilings(&self.books.seats) {
            return Err(Refusal::new(Cause::TrayTooSmall, 0));
        }
        self.books.tray -= amount;
        Ok(())
    }
}
