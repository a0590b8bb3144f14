// Dealing hands of one size: to each staking seat in seat order, and then to the bank.
ghost use Rattle.std.specs.Prelude.{◌≡◌, ◌≤◌, length, OnOk};
ghost use Rattle.game.specs.Rules.{deal_of};
ghost use Rattle.poker.specs.Dealing.{cards_of, stakers, stakers_before, hand_at, seat_hand, bank_hand, dealing};
ghost use Rattle.poker.specs.Laws.{IsDealtOut};

use game::deal::Deal;
use game::dealing::{Misdeal, judge};
use grading::cards::are_different_cards;

/// How many cards each hand of a game has.
#[derive(Clone, Copy)]
pub enum HandSize {
    Three,
    Five,
}

// How many of the seats stake.
fn stakers(seats: &[bool]) -> usize
    ensures count { result ≡ stakers seats.now }
    ensures bound { result ≤ length seats.now }
{
    let mut count = 0;
    for stakes in seats {
        if *stakes {
            count += 1;
        }
    }
    count
}

// How many staking seats stand before a seat, which is counted from 0.
fn stakers_before(seat: usize, staking: &[bool; 7]) -> usize
    ensures count { result ≡ stakers_before seat staking.now }
    ensures bound { result ≤ 7 }
{
    stakers(staking.get(..seat).unwrap_or(staking))
}

impl HandSize {
    // The number of cards.
    fn cards(self) -> usize
        ensures told { result ≡ cards_of self }
        ensures bound { result ≤ 5 }
    {
        match self {
            HandSize::Three => 3,
            HandSize::Five => 5,
        }
    }

    // The hand at a place among the hands; cut short where the cards run out.
    fn hand_at<'a>(self, place: usize, cards: &'a [u8]) -> &'a [u8]
        requires { place ≤ 7 }
        ensures { result.now ≡ hand_at (cards_of self) place cards.now }
    {
        let rest = cards.get(self.cards() * place..).unwrap_or(&[]);
        rest.get(..self.cards()).unwrap_or(rest)
    }

    /// Returns the hand of a seat, counted from 0: the cards behind the hands of the staking seats before it.
    pub fn seat_hand<'a>(self, seat: usize, deal: &Deal<'a>) -> &'a [u8]
        ensures { result.now ≡ seat_hand (cards_of self) seat (deal_of deal.now) }
    {
        self.hand_at(stakers_before(seat, &deal.staking), deal.cards)
    }

    /// Returns the hand of the bank: the cards behind the hands of all staking seats.
    pub fn bank_hand<'a>(self, deal: &Deal<'a>) -> &'a [u8]
        ensures { result.now ≡ bank_hand (cards_of self) (deal_of deal.now) }
    {
        self.hand_at(stakers(&deal.staking), deal.cards)
    }

    /// Returns `Ok` where the cards are a lawful deal: different cards, a hand for each staking seat in seat order, and then one for the bank.
    #[tactic(auto, using(crate::proofs::DealtOut::hands_if_lawful))]
    pub fn dealing(self, deal: &Deal<'_>) -> Result<(), Misdeal>
        ensures judged { result ≡ dealing (cards_of self) (deal_of deal.now) }
        ensures hands { OnOk result (IsDealtOut (cards_of self) (deal_of deal.now)) }
    {
        let hands = stakers(&deal.staking) + 1;
        judge(
            are_different_cards(deal.cards),
            deal.cards.len(),
            self.cards() * hands,
        )
    }
}
