// The two rolls that a run writes to: the entries of the ledger, and the notes of what was refused.
ghost use Rattle.std.specs.Prelude.{◌≡◌, ℕ, ◌<◌, [], ◌∷◌};
ghost use Rattle.ledger.specs.Rolls.{free, places, Written};
ghost use Rattle.run.specs.Meaning.{note_of};
ghost use Rattle.run.specs.Runs.{no_room};

use ledger::entries::Entry;
use ledger::notes::Note;
use ledger::rolls::Roll;
use refusals::Refusal;
use std::mem;

// A settlement writes at most so many entries: one a seat.
const MOST_ENTRIES: usize = 7;

/// The ledger, and the notes of what was refused.
// Reader and rolls are not one struct: the first command reads before anything is kept, and printing keeps nothing of what is read.
#[derive(Drop)]
pub struct Rolls<'a, 'b> {
    pub ledger: Roll<'a, Entry>,
    pub notes: Roll<'b, Note>,
}

impl<'a, 'b> Rolls<'a, 'b> {
    /// Takes a ledger and notes that were each lent to the caller; until they are given back, rolls without places stand where they were.
    pub fn take(ledger: &mut Roll<'a, Entry>, notes: &mut Roll<'b, Note>) -> Rolls<'a, 'b>
        ensures ledger { result.ledger ≡ ledger.old }
        ensures notes { result.notes ≡ notes.old }
        ensures left { (places ledger.new ≡ 0) × (places notes.new ≡ 0) }
    {
        Rolls {
            ledger: mem::replace(ledger, Roll::new(&mut [])),
            notes: mem::replace(notes, Roll::new(&mut [])),
        }
    }

    /// Gives the ledger and the notes back to where they were taken from.
    pub fn give_back(self, ledger: &mut Roll<'a, Entry>, notes: &mut Roll<'b, Note>)
        ensures ledger { ledger.new ≡ self.entry.ledger }
        ensures notes { notes.new ≡ self.entry.notes }
    {
        *ledger = self.ledger;
        *notes = self.notes;
    }

    // Whether they lack room for whatever one command may write.
    pub(crate) fn lack_room(&self) -> bool
        ensures { result ≡ no_room (free self.now.ledger) (free self.now.notes) }
    {
        self.ledger.free() < MOST_ENTRIES || self.notes.free() == 0
    }

    // Notes a refusal at a place of the sheet, where there is known to be room for it.
    pub(crate) fn note(&mut self, place: usize, refusal: Refusal)
        requires room { 0 < free self.old.notes }
        ensures notes { Written self.old.notes self.new.notes (note_of place refusal ∷ []) }
        ensures ledger { self.new.ledger ≡ self.old.ledger }
    {
        let _ = self.notes.keep(Note { place, refusal });
    }
}
