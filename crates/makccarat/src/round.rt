// A round, from the cards in the order they came: who adds, how many cards are called for, the final totals, who wins.
// The game has the way and the deal the cards, and both sides are asked about: a struct would be made anew for each question.
ghost use Rattle.std.specs.Prelude.{◌≡◌, [], ◌∷◌, ◌++◌, slice_index};
ghost use Rattle.makccarat.specs.Laws.{Decided, HigherWins, WaysCompared};
ghost use Rattle.makccarat.specs.Round.{total, first_two, first_total, adder, answered, called, final_total, higher, winner, pair, dealing};

use crate::card::{all_cards, points};
use crate::side::Side;
use crate::way::Way;
use game::dealing::{Misdeal, judge};
use grading::cards::rank_of;
use std::cmp::Ordering;

// The byte at a place, or 0, which counts no points.
fn card_at(cards: &[u8], place: usize) -> u8
    ensures { result ≡ slice_index cards.now place }
{
    cards.get(place).copied().unwrap_or(0)
}

// A side's first two cards.
fn first_two(cards: &[u8], side: Side) -> [u8; 2]
    ensures { result ≡ first_two cards.now side }
{
    match side {
        Side::Player => [card_at(cards, 0), card_at(cards, 2)],
        Side::Banker => [card_at(cards, 1), card_at(cards, 3)],
    }
}

// A side's total over its first two cards.
fn first_total(cards: &[u8], side: Side) -> u8
    ensures { result ≡ first_total cards.now side }
{
    let [one, two] = first_two(cards, side);
    (points(one) + points(two)) % 10
}

// A side's total over its first two cards and one more.
fn total_with(cards: &[u8], side: Side, added: u8) -> u8
    ensures { result ≡ total (first_two cards.now side ++ added ∷ []) }
{
    let [one, two] = first_two(cards, side);
    (points(one) + points(two) + points(added)) % 10
}

// Who adds a card first.
fn adder(cards: &[u8]) -> Option<Side>
    ensures { result ≡ adder cards.now }
{
    let player = first_total(cards, Side::Player);
    let banker = first_total(cards, Side::Banker);
    if player >= 8 || banker >= 8 {
        None
    } else if player <= banker {
        Some(Side::Player)
    } else {
        Some(Side::Banker)
    }
}

// Whether the other side adds a card too, once this side has added the fifth.
fn answered(way: Way, cards: &[u8], adder: Side) -> bool
    ensures { result ≡ answered way cards.now adder }
{
    let before = first_total(cards, adder);
    let after = total_with(cards, adder, card_at(cards, 4));
    let across = first_total(cards, adder.other());
    before == across || after > across || (after == across && way.adds_when_level())
}

/// Returns how many cards the round calls for, four to six; the two ways differ only where the side that added equals the other by it.
#[tactic(auto, using(crate::proofs::TwoWays::ways_compared))]
pub fn called(way: Way, cards: &[u8]) -> usize
    ensures number { result ≡ called way cards.now }
    ensures ways { WaysCompared cards.now }
{
    match adder(cards) {
        None => 4,
        Some(side) => if answered(way, cards, side) { 6 } else { 5 },
    }
}

/// Returns a side's total over all its cards: the last digit of their points.
pub fn final_total(way: Way, cards: &[u8], side: Side) -> u8
    ensures { result ≡ final_total way cards.now side }
{
    match adder(cards) {
        Some(adder) if adder == side => total_with(cards, side, card_at(cards, 4)),
        Some(adder) if answered(way, cards, adder) => total_with(cards, side, card_at(cards, 5)),
        _ => first_total(cards, side),
    }
}

// The side with the higher total; none at a tie.
fn higher(player: u8, banker: u8) -> Option<Side>
    ensures { result ≡ higher player banker }
{
    match player.cmp(&banker) {
        Ordering::Greater => Some(Side::Player),
        Ordering::Less => Some(Side::Banker),
        Ordering::Equal => None,
    }
}

/// Returns the side that wins, which is the one with the higher final total; `None` at a tie.
pub fn winner(way: Way, cards: &[u8]) -> Option<Side>
    ensures told { result ≡ winner way cards.now }
    ensures decided { Decided way cards.now result }
    ensures higher { HigherWins way cards.now result }
{
    higher(
        final_total(way, cards, Side::Player),
        final_total(way, cards, Side::Banker),
    )
}

/// Returns whether a side's first two cards are of one rank.
pub fn pair(cards: &[u8], side: Side) -> bool
    ensures { result ≡ pair cards.now side }
{
    let [one, two] = first_two(cards, side);
    rank_of(one) == rank_of(two)
}

/// Returns `Ok` where the cards are a lawful deal, which is cards alone and as many as are called for; refuses 12 before 13.
pub fn dealing(way: Way, cards: &[u8]) -> Result<(), Misdeal>
    ensures { result ≡ dealing way cards.now }
{
    judge(all_cards(cards), cards.len(), called(way, cards))
}
