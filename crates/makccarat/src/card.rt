// A list of cards, and what a card counts.
ghost use Rattle.std.specs.Prelude.{◌≡◌, ◌≤◌};
ghost use Rattle.makccarat.specs.Cards.{are_cards, points};

use grading::cards::{is_card, rank_of};

// Whether every byte is a card.
pub(crate) fn all_cards(cards: &[u8]) -> bool
    ensures { result ≡ are_cards cards.now }
{
    cards.iter().all(|&card| is_card(card))
}

/// Returns the points of a card: an ace counts 1, ranks up to 9 count as they are, tens and faces nothing.
pub fn points(card: u8) -> u8
    ensures worth { result ≡ points card }
    ensures digit { result ≤ 9 }
{
    match rank_of(card) {
        14 => 1,
        low if low <= 9 => low,
        _ => 0,
    }
}
