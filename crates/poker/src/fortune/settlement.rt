// What a hand of Fortune brings against the bank's, and the ceiling of a seat.
ghost use Rattle.std.specs.Prelude.{◌≡◌, ◌^◌, ◌<◌, sum};
ghost use Rattle.poker.specs.Posting.{largest};
ghost use Rattle.poker.specs.Fortune.{fortune_opens, fortune_outcome, bonus_odds, bonus, posted_odds, pair_plus_return, fortune_spaces, fortune_ceiling, rules_of};
ghost use Rattle.poker.specs.Laws.{HandsDecide, LeftGetsNothing};
ghost use Rattle.poker.specs.FortuneLaws.{FortuneLaws};

use crate::fortune::posted::Fortune;
use crate::outcome::Outcome;
use crate::payment::{if_raised, unless_left};
use crate::ranks::one_between;
use crate::stakes;
use game::choice::Choice;
use game::odds::{times, won};
use grading::{ThreeClass, ThreeGrading};
use refusals::Refusal;

const QUEEN: u8 = 12;

const ACE: u8 = 14;

// How many times the ante a class receives besides.
fn bonus_odds(class: ThreeClass) -> u16
    ensures { result ≡ bonus_odds class }
{
    match class {
        ThreeClass::StraightFlush => 5,
        ThreeClass::Three => 4,
        ThreeClass::Straight => 1,
        ThreeClass::Flush | ThreeClass::Pair | ThreeClass::OddCards => 0,
    }
}

// What a raised ante receives besides, win, tie or lose.
fn bonus(class: Result<ThreeClass, Refusal>, ante: u32) -> u64
    ensures told { result ≡ bonus class ante }
    ensures bound { result < 2 ^ 49 }
{
    match class {
        Ok(class) => times(ante, bonus_odds(class)),
        Err(_) => 0,
    }
}

// The odds posted for a class.
fn posted_odds(odds: [u16; 5], class: ThreeClass) -> u16
    ensures { result ≡ posted_odds odds class }
{
    match class {
        ThreeClass::StraightFlush => odds[0],
        ThreeClass::Three => odds[1],
        ThreeClass::Straight => odds[2],
        ThreeClass::Flush => odds[3],
        ThreeClass::Pair => odds[4],
        ThreeClass::OddCards => 0,
    }
}

// What Pair Plus wins, whatever the bank holds.
fn pair_plus_return(odds: [u16; 5], class: Result<ThreeClass, Refusal>, stake: u32) -> u64
    ensures told { result ≡ pair_plus_return odds class stake }
    ensures bound { result < 2 ^ 50 }
{
    match class {
        Ok(class) if class >= ThreeClass::Pair => won(stake, posted_odds(odds, class)),
        _ => 0,
    }
}

fn largest(odds: &[u16; 5]) -> u16
    ensures { result ≡ largest odds.now }
{
    odds.iter().fold(0, |most, &odds| most.max(odds))
}

impl<G: ThreeGrading> Fortune<G> {
    /// Returns whether the bank opens: with a pair or better, or odd cards headed by a queen, a king or an ace.
    pub fn opens(&self, bank: &[u8]) -> bool
        ensures { result ≡ fortune_opens bank.now }
    {
        match self.grading.class(bank) {
            Ok(class) => class >= ThreeClass::Pair || one_between(bank, QUEEN, ACE),
            Err(_) => false,
        }
    }

    // How the round ends for a raised seat.
    fn outcome(&self, own: &[u8], bank: &[u8]) -> Outcome
        ensures { result ≡ fortune_outcome own.now bank.now }
    {
        Outcome::of(self.grading.compare(own, bank), self.opens(bank))
    }

    /// Returns what a seat with these stakes and cards gets back against these cards of the bank's, in chips, in whatever deal they lie; nothing where the seat left.
    pub fn hand_return(&self, stakes: &[u32; 5], choice: Choice, own: &[u8], bank: &[u8]) -> u64
        ensures told { result ≡ sum (fortune_spaces self.now.odds stakes.now choice own.now bank.now) }
        ensures anywhere { HandsDecide 3 (rules_of self.now) stakes.now choice own.now bank.now result }
        ensures left { LeftGetsNothing (rules_of self.now) }
        ensures laws { FortuneLaws self.now.odds }
    {
        let ante = stakes::ante(stakes);
        let class = self.grading.class(own);
        let outcome = self.outcome(own, bank);
        let ante_part = if_raised(choice, outcome.ante_return(ante) + bonus(class, ante));
        let raise_part = if_raised(choice, outcome.raise_return(ante as u64, ante as u64));
        let pair_plus_part = unless_left(
            choice,
            pair_plus_return(self.odds, class, stakes::pair_plus(stakes)),
        );
        ante_part + raise_part + pair_plus_part
    }

    // The most that the bank may have to add to what a seat laid.
    pub(crate) fn seat_ceiling(&self, stakes: &[u32; 5]) -> u64
        ensures { result ≡ fortune_ceiling self.now.odds stakes.now }
    {
        7 * stakes::ante(stakes) as u64 + times(stakes::pair_plus(stakes), largest(&self.odds))
    }
}
