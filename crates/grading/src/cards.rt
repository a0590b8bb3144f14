// Which bytes are cards, and what a list of them holds.
ghost use Rattle.std.specs.Prelude.{◌≡◌};
ghost use Rattle.std.specs.List.{list_any};
ghost use Rattle.grading.specs.Cards.{rank_of, suit_of, is_card, copies_of, is_single_card, different_cards, all_of_suit, one_suit, is_of, highest_suit};

// Diamonds, clubs, hearts and spades, upward.
const SUITS: [u8; 4] = [0, 1, 2, 3];

// The rank of a card, and of any other byte what would be its rank.
pub fn rank_of(card: u8) -> u8
    ensures { result ≡ rank_of card }
{
    card / 16
}

// Its suit.
fn suit_of(card: u8) -> u8
    ensures { result ≡ suit_of card }
{
    card % 16
}

// A card is 16 times its rank, 2 to 14, and its suit, 0 to 3.
pub fn is_card(byte: u8) -> bool
    ensures { result ≡ is_card byte }
{
    let rank = rank_of(byte);
    let suit = suit_of(byte);
    2 <= rank && rank <= 14 && suit <= 3
}

// How often a byte stands among the cards.
fn copies(card: u8, cards: &[u8]) -> usize
    ensures { result ≡ copies_of card cards.now }
{
    let mut count = 0;
    for other in cards {
        if *other == card {
            count += 1;
        }
    }
    count
}

// Whether a byte is a card, and stands among the cards once.
fn is_single_card(byte: u8, cards: &[u8]) -> bool
    ensures { result ≡ is_single_card cards.now byte }
{
    is_card(byte) && copies(byte, cards) == 1
}

// Whether each byte is a card, and none stands there twice.
pub fn are_different_cards(cards: &[u8]) -> bool
    ensures { result ≡ different_cards cards.now }
{
    cards.iter().all(|card| is_single_card(*card, cards))
}

// Whether each card is of this suit.
fn are_of_suit(cards: &[u8], suit: u8) -> bool
    ensures { result ≡ all_of_suit suit cards.now }
{
    cards.iter().all(|card| suit_of(*card) == suit)
}

// Whether the cards are of one suit.
pub fn are_of_one_suit(cards: &[u8]) -> bool
    ensures { result ≡ one_suit cards.now }
{
    SUITS.iter().any(|suit| are_of_suit(cards, *suit))
}

// Whether the card of a rank and a suit is among the cards.
fn hold(cards: &[u8], rank: u8, suit: u8) -> bool
    ensures { result ≡ list_any (is_of rank suit) cards.now }
{
    cards
        .iter()
        .any(|card| rank_of(*card) == rank && suit_of(*card) == suit)
}

// The highest suit in which the cards hold a rank; 0 and no Option where they do not hold it, since every hand holds the rank it is asked about.
pub(crate) fn highest_suit(cards: &[u8], rank: u8) -> u8
    ensures { result ≡ highest_suit cards.now rank }
{
    SUITS
        .iter()
        .rev()
        .find(|suit| hold(cards, rank, **suit))
        .copied()
        .unwrap_or(0)
}
