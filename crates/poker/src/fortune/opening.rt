// Opening Fortune from the conditions of a table.
ghost use Rattle.poker.specs.FortuneOpening.{Opened};

use crate::fortune::posted::Fortune;
use game::odds::are_postable;
use game::opening::admit;
use grading::ThreeGrading;
use refusals::Refusal;

impl<G: ThreeGrading + Copy> Fortune<G> {
    /// Returns the game at these odds of Pair Plus, each 1 to 1,000, with a cap of 0; refuses other conditions with 18, which names no seat.
    pub fn open(grading: G, cap: u64, odds: [u16; 5]) -> Result<Fortune<G>, Refusal>
        ensures { Opened grading cap odds result }
    {
        admit(cap == 0 && are_postable(&odds))?;
        Ok(Fortune { grading, odds })
    }
}
