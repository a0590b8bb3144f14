// The deal at the front of a longer row of cards, as they lie in a shoe.
ghost use Rattle.std.specs.Prelude.{◌≡◌, IfSome};
ghost use Rattle.makccarat.specs.Laws.{OneFront, front};

use crate::card::all_cards;
use crate::round::called;
use crate::way::Way;

// No deal has more cards.
const MOST_CARDS: usize = 6;

/// Returns how many cards at the front of a row are its deal, the only front part that is lawful; `None` for fewer than six bytes, or one that is no card.
pub fn front(way: Way, row: &[u8]) -> Option<usize>
    ensures deal { result ≡ front way row.now }
    ensures alone { IfSome result (λ n. OneFront way row.now n) }
{
    if row.len() < MOST_CARDS || !all_cards(row) {
        return None;
    }
    Some(called(way, row))
}
