// Making the graded hand of cards that are admitted: no other crate can name this, so the hands are those of this one.
ghost use Rattle.std.specs.Prelude.{◌≡◌, ℕ, Bool, true, List};
ghost use Rattle.grading.specs.Admission.{is_hand};
ghost use Rattle.grading.specs.Laws.{InAnyOrder, Only};

use crate::classes::HandClass;

pub trait OfCards: Copy {
    type Class: HandClass;

    // how many cards make such a hand
    ghost SIZE: { ℕ };

    // the graded hand of so many different cards
    ghost hand: { List ℕ → Self };

    // the class of a graded hand
    ghost class_of: { Self → Self.Class };

    // whether cards are of a class
    ghost is_of: { Self.Class → List ℕ → Bool };

    const SIZE: usize;

    // Asks for admitted cards, as only `grade`, `class` and `compare` call it, behind their tests.
    fn of_cards(cards: &[u8]) -> Self
        requires { is_hand SIZE cards.now ≡ true }
        ensures hand { result ≡ hand cards.now }
        ensures any_order { InAnyOrder hand cards.now result }
        ensures only { Only is_of cards.now (class_of result) };
}
