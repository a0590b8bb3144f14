// Opening: a way with its odds from the conditions of a table.
ghost use Rattle.std.specs.Prelude.{◌≡◌};
ghost use Rattle.makccarat.specs.Ways.{conditions};
ghost use Rattle.makccarat.specs.Opening.{Opened};

use crate::posted::Makccarat;
use crate::way::Way;
use game::odds::{are_postable, are_unused};
use game::opening::admit;
use refusals::Refusal;

// Whether cap and odds are what the way asks.
fn conditions(way: Way, cap: u64, odds: [u16; 5]) -> bool
    ensures { result ≡ conditions way cap odds }
{
    match way {
        Way::First => cap == 0 && are_unused(&odds),
        Way::Second => cap == 0 && are_postable(&odds[..2]) && are_unused(&odds[2..]),
    }
}

impl Makccarat {
    /// Returns the game at these conditions: no cap, and in the first way no odds, in the second those of a tie and of pairs, each 1 to 1,000; refuses others with 18, which names no seat.
    pub fn open(way: Way, cap: u64, odds: [u16; 5]) -> Result<Makccarat, Refusal>
        ensures { Opened way cap odds result }
    {
        admit(conditions(way, cap, odds))?;
        match way {
            Way::First => Ok(Makccarat {
                way,
                tie: 14,
                pairs: 11,
            }),
            Way::Second => Ok(Makccarat {
                way,
                tie: odds[0],
                pairs: odds[1],
            }),
        }
    }
}
