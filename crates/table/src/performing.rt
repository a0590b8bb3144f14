// One command on the table: decided by the stage and the command together, in one match in place, so that each pair has its arm where a reader looks for it.
// Each pair is named, those that are refused too, so that a new command has to be placed in both stages.
ghost use Rattle.std.specs.Prelude.{◌≡◌};
ghost use Rattle.commands.specs.Calls.{call_of};
ghost use Rattle.table.specs.Performing.{Performed};

use crate::holdings::Table;
use books::stage::Stage;
use commands::Command;
use game::interface::Game;
use ledger::entries::Entry;
use ledger::rolls::Roll;
use refusals::{Cause, Refusal};

impl<G: Game> Table<G> {
    // Performs one command. Whatever history led to this table, with this command leads to what is left.
    pub fn perform(
        &mut self,
        command: Command<'_>,
        ledger: &mut Roll<'_, Entry>,
    ) -> Result<(), Refusal>
        ensures performed { Performed (G.rules self.old.game) self.old.books ledger.old (call_of command.entry) result self.new.books ledger.new }
        ensures game { self.new.game ≡ self.old.game }
    {
        match (self.books.stage, command) {
            (_, Command::Open { .. }) => Err(Refusal::new(Cause::WrongStage, 0)),
            (_, Command::Buy { seat, amount }) => self.buy(seat, amount),
            (_, Command::Cash { seat, amount }) => self.cash(seat, amount),
            (_, Command::Fill { amount }) => self.fill(amount),
            (_, Command::Draw { amount }) => self.draw(amount),
            (
                Stage::Betting,
                Command::Bet {
                    seat,
                    space,
                    amount,
                },
            ) => self.bet(seat, space, amount),
            (Stage::Betting, Command::Deal { cards }) => self.deal(cards),
            (Stage::Betting, Command::Raise { seat }) => Err(Refusal::new(Cause::WrongStage, seat)),
            (Stage::Betting, Command::Leave { seat }) => Err(Refusal::new(Cause::WrongStage, seat)),
            (Stage::Betting, Command::Settle) => Err(Refusal::new(Cause::WrongStage, 0)),
            (Stage::Betting, Command::Void) => Err(Refusal::new(Cause::WrongStage, 0)),
            (Stage::Dealt(_), Command::Bet { seat, .. }) => Err(Refusal::new(
                Cause::WrongStage,
                seat,
            )),
            (Stage::Dealt(_), Command::Deal { .. }) => Err(Refusal::new(Cause::WrongStage, 0)),
            (Stage::Dealt(_), Command::Raise { seat }) => self.raise(seat),
            (Stage::Dealt(_), Command::Leave { seat }) => self.leave(seat),
            (Stage::Dealt(_), Command::Settle) => self.settle(ledger),
            (Stage::Dealt(_), Command::Void) => self.void(),
        }
    }
}
