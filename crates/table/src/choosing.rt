// Raise and Leave: the choices that seats make once the cards are dealt.
// Both test stage, seat and open choice first; with these tests in one function the proof that the table stays sound did not close.
ghost use Rattle.std.specs.Prelude.{◌≡◌};
ghost use Rattle.commands.specs.Calls.{Raise, Leave};
ghost use Rattle.table.specs.Calls.{Did};

use crate::buying::place_of;
use crate::holdings::Table;
use books::seat::Seat;
use books::stage::Stage;
use game::choice::Choice;
use game::interface::Game;
use refusals::{Cause, Refusal};

impl<G: Game> Table<G> {
    // Moves the game's raise from the rack to the raise space.
    pub(crate) fn raise(&mut self, seat: u8) -> Result<(), Refusal>
        ensures did { Did (G.rules self.old.game) self.old.books (Raise seat) 0 result self.new.books }
        ensures game { self.new.game ≡ self.old.game }
    {
        if let Stage::Betting = self.books.stage {
            return Err(Refusal::new(Cause::WrongStage, seat));
        }
        let place = place_of(seat)?;
        // A copy: an element of an array is not lent as `&` yet where a struct around it has a ghost field, nor is it by way of `books()`.
        let s = self.books.seats[place];
        if !self.is_due(&s) {
            return Err(Refusal::new(Cause::NoChoiceOpen, seat));
        }
        let raise = self.game.raise(&s.stakes);
        if s.rack < raise {
            return Err(Refusal::new(Cause::RackTooSmall, seat));
        }
        self.books.seats[place] = Seat {
            rack: s.rack - raise,
            raised: raise,
            choice: Choice::Raised,
            ..s
        };
        Ok(())
    }

    // Marks the seat as left.
    pub(crate) fn leave(&mut self, seat: u8) -> Result<(), Refusal>
        ensures did { Did (G.rules self.old.game) self.old.books (Leave seat) 0 result self.new.books }
        ensures game { self.new.game ≡ self.old.game }
    {
        if let Stage::Betting = self.books.stage {
            return Err(Refusal::new(Cause::WrongStage, seat));
        }
        let place = place_of(seat)?;
        // A copy: an element of an array is not lent as `&` yet where a struct around it has a ghost field, nor is it by way of `books()`.
        let s = self.books.seats[place];
        if !self.is_due(&s) {
            return Err(Refusal::new(Cause::NoChoiceOpen, seat));
        }
        if !self.game.leaves(&s.stakes) {
            return Err(Refusal::new(Cause::LeavingBarred, seat));
        }
        self.books.seats[place].choice = Choice::Left;
        Ok(())
    }
}
