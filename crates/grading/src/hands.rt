// Hands of every size: grading them, their classes, and comparing two.
ghost use Rattle.std.specs.Prelude.{◌≡◌, ℕ, ◌<◌, List, Result};
ghost use Rattle.refusals.specs.declared.Refusal.{Refusal as Why};
ghost use Rattle.grading.specs.Grading.{IsGraded, IsClassed, IsCompared};
ghost use Rattle.grading.specs.Admission.{hand_causes, hands_causes};
ghost use Rattle.grading.specs.Laws.{LeastRefused, Only, InAnyOrder, InAnyOrders, OfOneClass, HigherClassWins, swapped as answer_swapped};
ghost use Rattle.grading.specs.declared.comparisons.Comparison.{Comparison as Answer};
ghost use Rattle.grading.specs.declared.comparisons.Comparison.TheVariants.{Higher};

use crate::admission::{admit, admit_both};
use crate::comparisons::Comparison;
use crate::of_cards::OfCards;
use crate::order::Order;
use refusals::Refusal;

pub trait Hand: Order + OfCards {
    // what grading answers for any bytes
    ghost graded: { List ℕ → Result Self Why };

    // the class of any bytes
    ghost classed: { List ℕ → Result Self.Class Why };

    // how any two hands compare
    ghost compared: { List ℕ → List ℕ → Result Answer Why };

    // The class of the graded hand.
    fn class(&self) -> Self::Class
        ensures { result ≡ Self.class_of self.now };

    ghost grades: { IsGraded Self.SIZE Self.hand graded };

    ghost classes: { IsClassed Self.SIZE Self.hand Self.class_of classed };

    ghost compares: { IsCompared Self.SIZE Self.hand Self.order compared };

    // a higher class beats a lower one
    ghost by_class: { (x y : Self) → Self.Class.lower (Self.class_of y) < Self.Class.lower (Self.class_of x) → Self.order x y ≡ Higher };
}

// Grades cards; refuses a byte that is no card or stands there twice with 12, before any other number of cards with 13.
pub fn grade<H: Hand>(cards: &[u8]) -> Result<H, Refusal>
    ensures graded { result ≡ H.graded cards.now }
    ensures least { LeastRefused (hand_causes H.SIZE cards.now) result }
{
    admit(H::SIZE, cards)?;
    Ok(H::of_cards(cards))
}

// The class of cards; refuses as grading them does.
pub fn class<H: Hand>(cards: &[u8]) -> Result<H::Class, Refusal>
    ensures class { result ≡ H.classed cards.now }
    ensures any_order { InAnyOrder H.classed cards.now result }
    ensures one_class { OfOneClass (Only H.is_of) H.SIZE cards.now result }
    ensures least { LeastRefused (hand_causes H.SIZE cards.now) result }
{
    admit(H::SIZE, cards)?;
    Ok(H::of_cards(cards).class())
}

// How the first of two hands compares with the second; refuses 12 for either before 13 for either.
pub fn compare<H: Hand>(first: &[u8], second: &[u8]) -> Result<Comparison, Refusal>
    ensures answer { result ≡ H.compared first.now second.now }
    ensures any_order { InAnyOrders H.compared first.now second.now result }
    ensures swapped { H.compared second.now first.now ≡ answer_swapped result }
    ensures classes { HigherClassWins H.Class.lower H.classed first.now second.now result }
    ensures least { LeastRefused (hands_causes H.SIZE first.now second.now) result }
{
    admit_both(H::SIZE, first, second)?;
    Ok(H::of_cards(first).compare(&H::of_cards(second)))
}
