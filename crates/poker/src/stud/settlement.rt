// What a hand of Stud brings against the bank's, and the ceiling of a seat.
ghost use Rattle.std.specs.Prelude.{◌≡◌, ◌^◌, ◌<◌, sum};
ghost use Rattle.poker.specs.Laws.{HandsDecide, LeftGetsNothing};
ghost use Rattle.poker.specs.StudLaws.{StudLaws};
ghost use Rattle.poker.specs.Stud.{stud_opens, stud_outcome, raise_odds, raise_of, raise_pays, stud_spaces, stud_ceiling, rules_of};

use crate::outcome::Outcome;
use crate::payment::if_raised;
use crate::ranks::one_between;
use crate::stakes;
use crate::stud::posted::Stud;
use game::choice::Choice;
use game::odds::times;
use grading::{FiveClass, FiveHand, class, compare};
use refusals::Refusal;

const KING: u8 = 13;

const ACE: u8 = 14;

// The odds at which the raise is paid for a class.
fn raise_odds(class: FiveClass) -> u16
    ensures { result ≡ raise_odds class }
{
    match class {
        FiveClass::RoyalFlush | FiveClass::StraightFlush => 50,
        FiveClass::Four => 20,
        FiveClass::FullHouse => 7,
        FiveClass::Flush => 5,
        FiveClass::Straight => 4,
        FiveClass::Three => 3,
        FiveClass::TwoPairs => 2,
        FiveClass::Pair | FiveClass::OddCards => 1,
    }
}

// What a winning raise, which is twice the ante, is paid above itself.
fn raise_pays(cap: u64, class: Result<FiveClass, Refusal>, ante: u32) -> u64
    ensures told { result ≡ raise_pays cap class (raise_of ante) }
    ensures bound { result < 2 ^ 49 }
{
    match class {
        // From four of a kind up what it is paid is held to the posted cap.
        Ok(class) if class >= FiveClass::Four => (2 * times(ante, raise_odds(class))).min(cap),
        Ok(class) => 2 * times(ante, raise_odds(class)),
        Err(_) => 0,
    }
}

// How the round ends for a raised seat.
fn outcome(own: &[u8], bank: &[u8]) -> Outcome
    ensures { result ≡ stud_outcome own.now bank.now }
{
    Outcome::of(compare::<FiveHand>(own, bank), Stud::opens(bank))
}

impl Stud {
    /// Returns whether the bank opens: with a pair or better, or odd cards with both an ace and a king.
    pub fn opens(bank: &[u8]) -> bool
        ensures { result ≡ stud_opens bank.now }
    {
        match class::<FiveHand>(bank) {
            Ok(class) => {
                class >= FiveClass::Pair
                    || (one_between(bank, ACE, ACE) && one_between(bank, KING, KING))
            }
            Err(_) => false,
        }
    }

    /// Returns what a seat with these stakes and cards gets back against these cards of the bank's, in chips, in whatever deal they lie; nothing where the seat left.
    pub fn hand_return(&self, stakes: &[u32; 5], choice: Choice, own: &[u8], bank: &[u8]) -> u64
        ensures told { result ≡ sum (stud_spaces self.now.cap stakes.now choice own.now bank.now) }
        ensures anywhere { HandsDecide 5 (rules_of self.now) stakes.now choice own.now bank.now result }
        ensures left { LeftGetsNothing (rules_of self.now) }
        ensures laws { StudLaws self.now.cap }
    {
        let ante = stakes::ante(stakes);
        let raise = 2 * ante as u64;
        let outcome = outcome(own, bank);
        let paid = raise_pays(self.cap, class::<FiveHand>(own), ante);
        let ante_part = if_raised(choice, outcome.ante_return(ante));
        let raise_part = if_raised(choice, outcome.raise_return(raise, paid));
        ante_part + raise_part
    }

    // The most that the bank may have to add to what a seat laid.
    pub(crate) fn seat_ceiling(&self, stakes: &[u32; 5]) -> u64
        ensures { result ≡ stud_ceiling self.now.cap stakes.now }
    {
        let ante = stakes::ante(stakes) as u64;
        ante + (14 * ante).max((100 * ante).min(self.cap))
    }
}
