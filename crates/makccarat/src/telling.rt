// Makccarat as the table knows it.
ghost use Rattle.makccarat.specs.Payment.{rules_of};
ghost use Rattle.makccarat.specs.Facts.{facts_of, raise_space_of};

use crate::posted::Makccarat;
use crate::round::dealing;
use game::choice::Choice;
use game::deal::Deal;
use game::dealing::Misdeal;
use game::interface::Game;
use game::taking::Barred;

impl Game for Makccarat {
    ghost rules = { rules_of };

    ghost facts = { facts_of };

    ghost raise_space = { raise_space_of };

    fn takes(&self, stakes: &[u32; 5], space: u8) -> Result<(), Barred> {
        let [player, banker, tie, _, _] = *stakes;
        // A space is a number, since any byte may be asked about; the table asks about 1 to 5.
        match space {
            1 | 2 | 3 => Ok(()),
            4 | 5 if player > 0 || banker > 0 || tie > 0 => Ok(()),
            4 | 5 => Err(Barred::NoCompanion),
            _ => Err(Barred::NoBets),
        }
    }

    fn deals(&self, deal: &Deal<'_>) -> Result<(), Misdeal> {
        dealing(self.way, deal.cards)
    }

    fn chooses(&self, _stakes: &[u32; 5]) -> bool {
        false
    }

    fn leaves(&self, _stakes: &[u32; 5]) -> bool {
        false
    }

    fn raise(&self, _stakes: &[u32; 5]) -> u64 {
        0
    }

    fn returns(&self, _seat: usize, stakes: &[u32; 5], _choice: Choice, deal: &Deal<'_>) -> u64 {
        self.seat_return(stakes, deal.cards)
    }

    fn ceiling(&self, stakes: &[u32; 5]) -> u64 {
        self.seat_ceiling(stakes)
    }
}
