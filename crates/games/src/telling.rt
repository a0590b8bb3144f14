// Any of the games as the table knows it.
ghost use Rattle.games.specs.Rules.{rules_of};
ghost use Rattle.games.specs.Facts.{facts_of, raise_space_of};

use crate::any_game::AnyGame;
use game::choice::Choice;
use game::deal::Deal;
use game::dealing::Misdeal;
use game::interface::Game;
use game::taking::Barred;

// What the game at hand answers, whichever it is. A match: a closure over a `dyn Game` would have to promise what it answers of any game.
macro_rules! ask {
    ($any:expr, $game:ident => $answer:expr) => {
        match $any {
            AnyGame::Fortune($game) => $answer,
            AnyGame::Stud($game) => $answer,
            AnyGame::Makccarat($game) => $answer,
        }
    };
}

impl Game for AnyGame {
    ghost rules = { rules_of };

    ghost facts = { facts_of };

    ghost raise_space = { raise_space_of };

    fn takes(&self, stakes: &[u32; 5], space: u8) -> Result<(), Barred> {
        ask!(self, game => game.takes(stakes, space))
    }

    fn deals(&self, deal: &Deal<'_>) -> Result<(), Misdeal> {
        ask!(self, game => game.deals(deal))
    }

    fn chooses(&self, stakes: &[u32; 5]) -> bool {
        ask!(self, game => game.chooses(stakes))
    }

    fn leaves(&self, stakes: &[u32; 5]) -> bool {
        ask!(self, game => game.leaves(stakes))
    }

    fn raise(&self, stakes: &[u32; 5]) -> u64 {
        ask!(self, game => game.raise(stakes))
    }

    fn returns(&self, seat: usize, stakes: &[u32; 5], choice: Choice, deal: &Deal<'_>) -> u64 {
        ask!(self, game => game.returns(seat, stakes, choice, deal))
    }

    fn ceiling(&self, stakes: &[u32; 5]) -> u64 {
        ask!(self, game => game.ceiling(stakes))
    }
}
