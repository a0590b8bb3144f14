// One call of a history, and what it deposits and withdraws.
ghost use Rattle.std.specs.Prelude.{◌≡◌};
ghost use Rattle.history.specs.Turns.{deposited_by, withdrawn_by};

use commands::Command;
use refusals::Refusal;

/// One call that was made: its command, how many places were free in the ledger that it was handed, and its answer.
#[derive(Clone, Copy)]
pub struct PastCall<'a> {
    pub command: Command<'a>,
    pub free: usize,
    pub answer: Result<(), Refusal>,
}

impl PastCall<'_> {
    // The chips that the call brought to the table: those of an accepted Buy or Fill.
    pub(crate) fn deposited(&self) -> u64
        ensures { result ≡ deposited_by self.now }
    {
        match (self.answer, self.command) {
            (Ok(()), Command::Buy { amount, .. } | Command::Fill { amount }) => amount,
            _ => 0,
        }
    }

    // The chips that the call took away: those of an accepted Cash or Draw.
    pub(crate) fn withdrawn(&self) -> u64
        ensures { result ≡ withdrawn_by self.now }
    {
        match (self.answer, self.command) {
            (Ok(()), Command::Cash { amount, .. } | Command::Draw { amount }) => amount,
            _ => 0,
        }
    }
}
