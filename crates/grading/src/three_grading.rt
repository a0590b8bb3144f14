// Ways of grading three cards: their whole meaning is class and order.
ghost use Rattle.std.specs.Prelude.{◌≡◌};
ghost use Rattle.grading.specs.Grading.{three_class, three_compared};

use crate::comparisons::Comparison;
use crate::hands;
use crate::three::ThreeHand;
use crate::three_classes::ThreeClass;
use refusals::Refusal;

pub trait ThreeGrading {
    // The class of three cards; refuses 12 before 13.
    fn class(&self, cards: &[u8]) -> Result<ThreeClass, Refusal>
        ensures { result ≡ three_class cards.now };

    // How the first of two hands of three cards compares with the second; refuses 12 for either before 13 for either.
    fn compare(&self, first: &[u8], second: &[u8]) -> Result<Comparison, Refusal>
        ensures { result ≡ three_compared first.now second.now };
}

// Grading by the rule itself.
#[derive(Clone, Copy)]
pub struct ByRule;

impl ThreeGrading for ByRule {
    fn class(&self, cards: &[u8]) -> Result<ThreeClass, Refusal> {
        hands::class::<ThreeHand>(cards)
    }

    fn compare(&self, first: &[u8], second: &[u8]) -> Result<Comparison, Refusal> {
        hands::compare::<ThreeHand>(first, second)
    }
}
