// Opening a table with an empty history, and performing a call on it.
ghost use Rattle.std.specs.Prelude.{◌≡◌, IfOk, IfErr};
ghost use Rattle.commands.specs.Calls.{call_of};
ghost use Rattle.ledger.specs.Rolls.{free};
ghost use Rattle.table.specs.Performing.{Performed};

use crate::histories::History;
use crate::past_calls::PastCall;
use commands::Command;
use game::interface::Game;
use ledger::entries::Entry;
use ledger::rolls::Roll;
use refusals::Refusal;
use std::alloc::{AllocError, Global};
use table::holdings::Table;
use table::opening::Opening;

impl<'a, G: Game + Drop> History<'a, G> {
    ghost use Rattle.refusals.specs.Refusals.{Answers};
    ghost use Rattle.table.specs.Opening.{open_causes};
    ghost use Rattle.table.specs.Performing.{cause_in};
    ghost use Rattle.history.specs.Histories.{Opened};

    /// Returns a newly opened table of this game, on which no call was made yet, or the refusal of its opening.
    pub fn open(alloc: Global, game: G, opening: Opening) -> Result<History<'a, G>, Refusal>
        ensures opened { Opened G.Game game opening result }
        ensures least { Answers (open_causes opening) (cause_in result) }
    {
        let table = Table::open(game, opening)?;
        Ok(History {
            table,
            opening,
            calls: Vec::new(alloc),
            deposited: 0,
            withdrawn: 0,
        })
    }
}

impl<'a, G: Game> History<'a, G> {
    ghost use Rattle.history.specs.Histories.{Adds, Same};

    /// Performs one command with the ledger that the caller hands in, and returns its answer.
    ///
    /// An accepted settlement writes its entries behind those that the ledger keeps; a refused command changes nothing
    /// but the history, which has every call. Where memory runs out the command is not performed, and nothing changes.
    pub fn perform(
        &mut self,
        command: Command<'a>,
        ledger: &mut Roll<'_, Entry>,
    ) -> Result<Result<(), Refusal>, AllocError>
        ensures performed { IfOk result (λ answer. Performed (G.rules self.old.table.game) self.old.table.books ledger.old (call_of command.entry) answer self.new.table.books ledger.new) }
        ensures history { IfOk result (λ answer. Adds G.Game self.old (free ledger.old) command.entry answer self.new) }
        ensures unchanged { IfErr result (λ _. Same G.Game self.old self.new × (ledger.new ≡ ledger.old)) }
    {
        self.calls.reserve(1)?;
        let free = ledger.free();
        let answer = self.table.perform(command, ledger);
        let call = PastCall {
            command,
            free,
            answer,
        };
        self.deposited += u128::from(call.deposited());
        self.withdrawn += u128::from(call.withdrawn());
        self.calls.push_reserved(call);
        Ok(answer)
    }
}
