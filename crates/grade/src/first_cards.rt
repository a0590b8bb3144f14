// The first cards of a hand that is typed.
ghost use Rattle.std.specs.Prelude.{◌≡◌, ◌≤◌, [], ◌∷◌, ◌++◌, take};

// A sixth card is one too many for a hand of any size.
const KEPT: usize = 6;

/// The first six cards of a hand, or as many as it has so far.
#[derive(Clone, Copy)]
pub struct FirstCards {
    cards: [u8; KEPT],
    count: usize,
    ghost room: { count ≤ 6 },
}

impl FirstCards {
    /// Those of a hand of no cards.
    pub fn new() -> FirstCards
        ensures { take result.count result.cards ≡ [] }
    {
        FirstCards {
            cards: [0; KEPT],
            count: 0,
        }
    }

    /// Takes one card more, if there is room.
    pub fn push(&mut self, card: u8)
        ensures { take self.new.count self.new.cards ≡ take 6 (take self.old.count self.old.cards ++ card ∷ []) }
    {
        if self.count < KEPT {
            self.cards[self.count] = card;
            self.count += 1;
        }
    }

    /// The cards, in the order in which they were typed.
    pub fn as_slice(&self) -> &[u8]
        ensures { result.now ≡ take self.now.count self.now.cards }
    {
        &self.cards[..self.count]
    }
}
