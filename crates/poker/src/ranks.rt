// Whether cards hold a rank.
ghost use Rattle.std.specs.Prelude.{◌≡◌};
ghost use Rattle.poker.specs.Ranks.{between, one_between};

use grading::cards::rank_of;

// Whether a card's rank is from low to high.
fn is_between(card: u8, low: u8, high: u8) -> bool
    ensures { result ≡ between low high card }
{
    (low..=high).contains(&rank_of(card))
}

// Whether one of the cards is of a rank from low to high.
pub(crate) fn one_between(cards: &[u8], low: u8, high: u8) -> bool
    ensures { result ≡ one_between low high cards.now }
{
    cards.iter().any(|&card| is_between(card, low, high))
}
