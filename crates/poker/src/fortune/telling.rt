// Fortune as the table knows it.
ghost use Rattle.poker.specs.Fortune.{rules_of};
ghost use Rattle.poker.specs.FortuneFacts.{facts_of, raise_space_of};

use crate::dealing::HandSize;
use crate::fortune::posted::Fortune;
use crate::stakes;
use game::choice::Choice;
use game::deal::Deal;
use game::dealing::Misdeal;
use game::interface::Game;
use game::taking::Barred;
use grading::ThreeGrading;

// Stud answers deals, chooses and returns in these words too: what they share is in HandSize and stakes, and a trait of the two would only pass these calls on.
const HAND: HandSize = HandSize::Three;

impl<G: ThreeGrading> Game for Fortune<G> {
    ghost rules = { rules_of };

    ghost facts = { facts_of };

    ghost raise_space = { raise_space_of };

    fn takes(&self, _stakes: &[u32; 5], space: u8) -> Result<(), Barred> {
        // A space is a number, since any byte may be asked about; the table asks about 1 to 5.
        match space {
            1 | 3 => Ok(()),
            _ => Err(Barred::NoBets),
        }
    }

    fn deals(&self, deal: &Deal<'_>) -> Result<(), Misdeal> {
        HAND.dealing(deal)
    }

    fn chooses(&self, stakes: &[u32; 5]) -> bool {
        stakes::ante(stakes) > 0
    }

    fn leaves(&self, stakes: &[u32; 5]) -> bool {
        stakes::pair_plus(stakes) == 0
    }

    fn raise(&self, stakes: &[u32; 5]) -> u64 {
        stakes::ante(stakes) as u64
    }

    fn returns(&self, seat: usize, stakes: &[u32; 5], choice: Choice, deal: &Deal<'_>) -> u64 {
        let own = HAND.seat_hand(seat, deal);
        let bank = HAND.bank_hand(deal);
        self.hand_return(stakes, choice, own, bank)
    }

    fn ceiling(&self, stakes: &[u32; 5]) -> u64 {
        self.seat_ceiling(stakes)
    }
}
