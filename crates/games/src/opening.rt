// Opening a game by its number: 1 Fortune, 2 Stud, 3 and 4 Makccarat in the first and the second way.
ghost use Rattle.games.specs.Opening.{Opened};

use crate::any_game::AnyGame;
use grading::ByRule;
use makccarat::posted::Makccarat;
use makccarat::way::Way;
use poker::fortune::posted::Fortune;
use poker::stud::posted::Stud;
use refusals::{Cause, Refusal};

impl AnyGame {
    /// Returns the game of this number at these conditions; refuses with 18, which names no seat, where they are not the game's or there is none of that number.
    // Cap and odds come from a sheet's conditions, which the games do not know; a struct of the two would be filled here and taken apart in each of the three.
    pub fn new(number: u8, cap: u64, odds: [u16; 5]) -> Result<AnyGame, Refusal>
        ensures { Opened number cap odds result }
    {
        // The number is matched once, here, where it becomes a game: an enum of numbers would be matched a second time.
        match number {
            1 => Ok(AnyGame::Fortune(Fortune::open(ByRule, cap, odds)?)),
            2 => Ok(AnyGame::Stud(Stud::open(cap, odds)?)),
            3 => Ok(AnyGame::Makccarat(Makccarat::open(Way::First, cap, odds)?)),
            4 => Ok(AnyGame::Makccarat(Makccarat::open(Way::Second, cap, odds)?)),
            _ => Err(Refusal::new(Cause::BadConditions, 0)),
        }
    }
}
