// The answer of a comparison of two hands.
ghost use Rattle.std.specs.Prelude.{◌≡◌};
ghost use Rattle.grading.specs.Order.{as_comparison};

use std::cmp::Ordering;

// How the first of two hands compares with the second: an enum of its own and no Ordering, since its words are the rules', and hands of other cards may be alike.
#[derive(Clone, Copy, PartialEq, Eq, Debug)]
pub enum Comparison {
    Lower,
    Alike,
    Higher,
}

// The greater of two graded hands is the higher.
impl From<Ordering> for Comparison {
    ghost from_gives = { λ answer comparison. comparison ≡ as_comparison answer };

    fn from(answer: Ordering) -> Comparison {
        match answer {
            Ordering::Less => Comparison::Lower,
            Ordering::Equal => Comparison::Alike,
            Ordering::Greater => Comparison::Higher,
        }
    }
}
