// A hand as it is typed, card by card.
ghost use Rattle.std.specs.Prelude.{◌≡◌, ℕ, List, [], ◌∷◌, ◌++◌, length, ◌==◌};
ghost use Rattle.grade.specs.Answers.{one_hand, two_hands};
ghost use Rattle.grade.specs.Faults.{as_refusal};
ghost use Rattle.grade.specs.States.{IsHandAfter};

use crate::answers::{Answer, answer_one, answer_two};
use crate::faults::Fault;
use crate::first_cards::FirstCards;
use grading::cards::is_card;

/// What decides the answer for a hand, of the cards that were typed so far: the first six, which cards they all were, and whether
/// a word was no card or a card stood there twice. However many words there are, it takes no more memory.
#[derive(Clone, Copy)]
pub struct TypedHand {
    first: FirstCards,
    seen: [bool; 256],
    faulty: bool,
}

impl TypedHand {
    pub fn new() -> TypedHand
        ensures { IsHandAfter result [] }
    {
        let first = FirstCards::new();
        TypedHand {
            first,
            seen: [false; 256],
            faulty: false,
        }
    }

    /// Takes one card more; a byte that is no card stands for a word that names none.
    pub fn add(&mut self, card: u8)
        ensures { (cards : List ℕ) → IsHandAfter self.old cards → IsHandAfter self.new (cards ++ card ∷ []) }
    {
        if !is_card(card) || self.seen[card as usize] {
            self.faulty = true;
            return;
        }
        self.seen[card as usize] = true;
        self.first.push(card);
    }

    /// Whether no word was typed.
    pub fn is_empty(&self) -> bool
        ensures { (cards : List ℕ) → IsHandAfter self.now cards → result ≡ (length cards == 0) }
    {
        !self.faulty && self.first.as_slice().is_empty()
    }

    /// The answer for this hand alone.
    pub fn answer(&self) -> Result<Answer, Fault>
        ensures { (cards : List ℕ) → IsHandAfter self.now cards → as_refusal result ≡ one_hand cards }
    {
        if self.faulty {
            return Err(Fault::NoCard);
        }
        answer_one(self.first.as_slice())
    }

    /// The answer for this hand and a second one.
    pub fn answer_beside(&self, second: &TypedHand) -> Result<Answer, Fault>
        ensures { (cards others : List ℕ) → IsHandAfter self.now cards → IsHandAfter second.now others → as_refusal result ≡ two_hands cards others }
    {
        if self.faulty || second.faulty {
            return Err(Fault::NoCard);
        }
        answer_two(self.first.as_slice(), second.first.as_slice())
    }
}
