// Cards as people write them: a rank and the letter of a suit, in capital or small letters.
ghost use Rattle.std.specs.Prelude.{◌≡◌, ℕ, List, [], ◌∷◌, ◌++◌, length, ◌==◌};
ghost use Rattle.grade.specs.Words.{capital as capital_of, rank_named, suit_named, card_from, card_named, below};
ghost use Rattle.grade.specs.States.{word_of};

// A small letter as a capital, any other byte as it is; with the call in place the proof of `card_of` did not close.
fn capital(byte: u8) -> u8
    ensures { result ≡ capital_of byte }
{
    byte.to_ascii_uppercase()
}

// The rank that a digit or a capital names.
fn rank_of(byte: u8) -> Option<u8>
    ensures named { result ≡ rank_named byte }
    ensures bound { below 15 result }
{
    match byte {
        b'2'..=b'9' => Some(byte - b'0'),
        b'T' => Some(10),
        b'J' => Some(11),
        b'Q' => Some(12),
        b'K' => Some(13),
        b'A' => Some(14),
        _ => None,
    }
}

// The suit that a capital names.
fn suit_of(byte: u8) -> Option<u8>
    ensures named { result ≡ suit_named byte }
    ensures bound { below 4 result }
{
    match byte {
        b'D' => Some(0),
        b'C' => Some(1),
        b'H' => Some(2),
        b'S' => Some(3),
        _ => None,
    }
}

// The card of a rank and a suit, where both are named.
fn card_from(rank: Option<u8>, suit: Option<u8>) -> Option<u8>
    requires { (below 15 rank) × (below 4 suit) }
    ensures { result ≡ card_from rank suit }
{
    Some(16 * rank? + suit?)
}

// The card that a word names, as AS, 10h or tD.
pub fn card_of(word: &[u8]) -> Option<u8>
    ensures { result ≡ card_named word.now }
{
    match word {
        [rank, suit] => card_from(rank_of(capital(*rank)), suit_of(capital(*suit))),
        [b'1', b'0', suit] => card_from(Some(10), suit_of(capital(*suit))),
        _ => None,
    }
}

/// A word as far as it was typed: its bytes while it may still name a card, and no more of them.
#[derive(Clone, Copy)]
pub enum Word {
    Empty,
    One(u8),
    Two(u8, u8),
    Three(u8, u8, u8),
    Longer,
}

impl Word {
    /// Whether it has no byte, so that it is no word yet.
    pub fn is_empty(self) -> bool
        ensures { (bytes : List ℕ) → self ≡ word_of bytes → result ≡ (length bytes == 0) }
    {
        matches!(self, Word::Empty)
    }

    /// The word with one byte more.
    pub fn with(self, byte: u8) -> Word
        ensures { (bytes : List ℕ) → self ≡ word_of bytes → result ≡ word_of (bytes ++ byte ∷ []) }
    {
        match self {
            Word::Empty => Word::One(byte),
            Word::One(first) => Word::Two(first, byte),
            Word::Two(first, second) => Word::Three(first, second, byte),
            Word::Three(_, _, _) | Word::Longer => Word::Longer,
        }
    }

    /// The card that the word names.
    pub fn card(self) -> Option<u8>
        ensures { (bytes : List ℕ) → self ≡ word_of bytes → result ≡ card_named bytes }
    {
        match self {
            Word::Two(first, second) => card_of(&[first, second]),
            Word::Three(first, second, third) => card_of(&[first, second, third]),
            Word::Empty | Word::One(_) | Word::Longer => None,
        }
    }
}
