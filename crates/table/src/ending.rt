// Settle and Void: how a round ends.
ghost use Rattle.std.specs.Prelude.{◌≡◌, ℕ, ◌<◌, ◌≤◌, []};
ghost use Rattle.ledger.specs.Rolls.{free, Written};
ghost use Rattle.commands.specs.Calls.{Settle, Void};
ghost use Rattle.game.specs.Rules.{deal_of};
ghost use Rattle.books.specs.declared.stage.Stage.TheVariants.{Dealt};
ghost use Rattle.books.specs.Books.{seat_at};
ghost use Rattle.table.specs.Calls.{Did, either};
ghost use Rattle.table.specs.Effects.{return_to};
ghost use Rattle.table.specs.Entries.{writes};
ghost use Rattle.table.specs.Holdings.{one_if, does_stake};
ghost use Rattle.table.specs.Steps.{settle_seat, entry_at, May};

use crate::holdings::{Table, does_stake};
use books::seat::Seat;
use books::stage::Stage;
use game::deal::Deal;
use game::interface::Game;
use ledger::entries::Entry;
use ledger::rolls::Roll;
use refusals::{Cause, Refusal};

impl<G: Game> Table<G> {
    // What the game returns to the seat at a place, for its own stakes and its own choice.
    fn returned_to(&self, k: usize, seat: &Seat, deal: &Deal<'_>) -> u64
        ensures { result ≡ return_to (G.rules self.now.game) (deal_of deal.now) k seat.now }
    {
        self.game.returns(k, &seat.stakes, seat.choice, deal)
    }

    // Settles one seat, which goes by its place as the loop over them does. One that does not stake only has its choice ended.
    fn settle_seat(&mut self, k: usize, deal: &Deal<'_>, ledger: &mut Roll<'_, Entry>)
        requires seat { k < 7 }
        requires dealt { self.old.books.stage ≡ Dealt (deal_of deal.now) }
        requires may { May (G.rules self.old.game) (seat_at self.old.books k) }
        requires room { one_if (does_stake (seat_at self.old.books k)) ≤ free ledger.old }
        ensures books { self.new.books ≡ settle_seat (G.rules self.old.game) (deal_of deal.now) self.old.books k }
        ensures game { self.new.game ≡ self.old.game }
        ensures ledger { Written ledger.old ledger.new (entry_at (G.rules self.old.game) self.old.books.rounds (deal_of deal.now) k (seat_at self.old.books k)) }
    {
        // A copy: an element of an array is not lent as `&` yet where a struct around it has a ghost field, nor is it by way of `books()`.
        let s = self.books.seats[k];
        if !does_stake(&s) {
            self.books.seats[k].end_choice();
            return;
        }
        let returned = self.returned_to(k, &s, deal);
        self.books.serve(k, returned, ledger);
    }

    // Settles the round, with an entry for each seat that stakes.
    pub(crate) fn settle(&mut self, ledger: &mut Roll<'_, Entry>) -> Result<(), Refusal>
        ensures did { Did (G.rules self.old.game) self.old.books Settle (free ledger.old) result self.new.books }
        ensures game { self.new.game ≡ self.old.game }
        ensures ledger { Written ledger.old ledger.new (either result (writes (G.rules self.old.game) self.old.books Settle) []) }
    {
        let stage = self.books.stage;
        let Some(deal) = stage.deal() else {
            return Err(Refusal::new(Cause::WrongStage, 0));
        };
        if let Some(seat) = self.missing() {
            return Err(Refusal::new(Cause::ChoiceMissing, seat));
        }
        if ledger.free() < self.stakers() {
            return Err(Refusal::new(Cause::NoPlaceFree, 0));
        }
        // A loop over the seats by their places, in order, as a dealer serves them: each is settled before the next.
        for k in 0..7 {
            self.settle_seat(k, &deal, ledger);
        }
        self.books.stage = Stage::Betting;
        Ok(())
    }

    // Voids the round: all stakes go back, raises too, and nothing is written.
    pub(crate) fn void(&mut self) -> Result<(), Refusal>
        ensures did { Did (G.rules self.old.game) self.old.books Void 0 result self.new.books }
        ensures game { self.new.game ≡ self.old.game }
    {
        if let Stage::Betting = self.books.stage {
            return Err(Refusal::new(Cause::WrongStage, 0));
        }
        // On a copy, since half-way through the seats the table would not be sound.
        let mut seats = self.books.seats;
        for seat in &mut seats {
            seat.take_back();
            seat.end_choice();
        }
        self.books.seats = seats;
        self.books.stage = Stage::Betting;
        Ok(())
    }
}
