// Keeping records in a roll. Storing demands that a record names a seat, and that one which is written over may be let go.
ghost use Rattle.std.specs.Prelude.{◌≡◌, ℕ, ◌<◌, [], ◌∷◌, length};
ghost use Rattle.ledger.specs.Rolls.{lent, slice_of, kept, places, free, kept_with, lent_with, keep_answer, Written};

use crate::rolls::Roll;
use crate::seated::NamesSeat;
use refusals::{Cause, Refusal};

impl<R: NamesSeat + Drop> Roll<'_, R> {
    // An empty roll over the lent places.
    pub fn new(slots: &mut [R]) -> Roll<'_, R>
        ensures kept { kept result ≡ [] }
        ensures lent { lent result ≡ slots.old }
        ensures places { places result ≡ length slots.old }
        ensures slice { slice_of result ≡ slots.entry.ghost_name }
    {
        Roll { slots, len: 0 }
    }

    // The records, in order.
    pub fn records(&self) -> &[R]
        ensures { result.now ≡ kept self.now }
    {
        &self.slots[..self.len]
    }

    // How many more records find a place.
    pub fn free(&self) -> usize
        ensures { result ≡ free self.now }
    {
        self.slots.len() - self.len
    }

    // Keeps a record after the others, or refuses it where no place is free; then nothing changes.
    pub fn keep(&mut self, record: R) -> Result<(), Refusal>
        ensures answer { result ≡ keep_answer self.old }
        ensures kept { kept self.new ≡ kept_with self.old «record» }
        ensures lent { lent self.new ≡ lent_with self.old «record» }
        ensures places { places self.new ≡ places self.old }
        ensures slice { slice_of self.new ≡ slice_of self.old }
        ensures written { 0 < free self.old → Written self.old self.new («record» ∷ []) }
    {
        if self.free() == 0 {
            return Err(Refusal::new(Cause::NoPlaceFree, 0));
        }
        self.slots[self.len] = record;
        self.len += 1;
        Ok(())
    }

    // Empties the roll; the places stay as they are.
    pub fn clear(&mut self)
        ensures kept { kept self.new ≡ [] }
        ensures lent { lent self.new ≡ lent self.old }
        ensures places { places self.new ≡ places self.old }
        ensures slice { slice_of self.new ≡ slice_of self.old }
    {
        self.len = 0;
    }
}
