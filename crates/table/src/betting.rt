// Bet and Deal: what is done while the table is betting.
ghost use Rattle.std.specs.Prelude.{◌≡◌, ◌-◌, ◌<◌, true, false, MatchOption};
ghost use Rattle.commands.specs.Calls.{Bet, Deal as Deals};
ghost use Rattle.table.specs.Calls.{Did};
ghost use Rattle.table.specs.Holdings.{bad_space};

use crate::buying::place_of;
use crate::holdings::{MOST_ROUNDS, Table};
use books::stage::{Round, Stage};
use game::deal::Deal;
use game::interface::Game;
use game::taking::Barred;
use refusals::{Cause, Refusal};

// The place of the space with this number, if there is one.
fn place_of_space(space: u8) -> Option<usize>
    ensures { MatchOption result (bad_space space ≡ true) (λ place. (bad_space space ≡ false) × (place ≡ space - 1) × (place < 5)) }
{
    match space {
        1..=5 => Some(usize::from(space) - 1),
        _ => None,
    }
}

impl<G: Game> Table<G> {
    // Moves a stake from the rack to an empty space, as far as the tray covers the ceilings then.
    pub(crate) fn bet(&mut self, seat: u8, space: u8, amount: u32) -> Result<(), Refusal>
        ensures did { Did (G.rules self.old.game) self.old.books (Bet seat space amount) 0 result self.new.books }
        ensures game { self.new.game ≡ self.old.game }
    {
        let Stage::Betting = self.books.stage else {
            return Err(Refusal::new(Cause::WrongStage, seat));
        };
        let place = place_of(seat)?;
        let Some(on) = place_of_space(space) else {
            return Err(Refusal::new(Cause::NoBets, seat));
        };
        // On a copy, since the tray may refuse a stake that is already laid.
        let mut seats = self.books.seats;
        let s = &mut seats[place];
        let mut others = s.stakes;
        others[on] = 0;
        let taking = self.game.takes(&others, space);
        if let Err(Barred::NoBets) = taking {
            return Err(Refusal::new(Cause::NoBets, seat));
        }
        if amount == 0 || amount < self.books.minimum || amount > self.books.maximum {
            return Err(Refusal::new(Cause::BadAmount, seat));
        }
        if s.stakes[on] != 0 {
            return Err(Refusal::new(Cause::SpaceTaken, seat));
        }
        if let Err(Barred::NoCompanion) = taking {
            return Err(Refusal::new(Cause::NoCompanion, seat));
        }
        if s.rack < u64::from(amount) {
            return Err(Refusal::new(Cause::RackTooSmall, seat));
        }
        s.stakes[on] = amount;
        s.rack -= u64::from(amount);
        if self.books.tray < self.ceilings(&seats) {
            return Err(Refusal::new(Cause::TrayTooSmall, seat));
        }
        self.books.seats = seats;
        Ok(())
    }

    // Takes the cards of a round for the seats that stake, and counts the round.
    pub(crate) fn deal(&mut self, cards: &[u8]) -> Result<(), Refusal>
        ensures did { Did (G.rules self.old.game) self.old.books (Deals cards.now) 0 result self.new.books }
        ensures game { self.new.game ≡ self.old.game }
    {
        let Stage::Betting = self.books.stage else {
            return Err(Refusal::new(Cause::WrongStage, 0));
        };
        if self.stakers() == 0 {
            return Err(Refusal::new(Cause::NoStakes, 0));
        }
        if self.books.rounds >= MOST_ROUNDS {
            return Err(Refusal::new(Cause::NoRoundsLeft, 0));
        }
        let deal = Deal {
            staking: self.staking(),
            cards,
        };
        self.game
            .deals(&deal)
            .map_err(|misdeal| Refusal::new(Cause::from(misdeal), 0))?;
        self.books.stage = Stage::Dealt(Round::new(&deal));
        self.books.rounds += 1;
        Ok(())
    }
}
