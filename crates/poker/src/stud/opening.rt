// Opening Stud from the conditions of a table.
ghost use Rattle.std.specs.Prelude.{◌≡◌};
ghost use Rattle.poker.specs.Posting.{cap_postable};
ghost use Rattle.poker.specs.StudOpening.{Opened};

use crate::stud::posted::Stud;
use game::odds::are_unused;
use game::opening::admit;
use refusals::Refusal;

fn is_postable(cap: u64) -> bool
    ensures { result ≡ cap_postable cap }
{
    (1..=1_000_000_000).contains(&cap)
}

impl Stud {
    /// Returns the game at this cap, 1 to 1,000,000,000 chips, with five odds of 0; refuses other conditions with 18, which names no seat.
    pub fn open(cap: u64, odds: [u16; 5]) -> Result<Stud, Refusal>
        ensures { Opened cap odds result }
    {
        admit(is_postable(cap) && are_unused(&odds))?;
        Ok(Stud { cap })
    }
}
