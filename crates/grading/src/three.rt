// Hands of three cards: grading them, and their order.
ghost use Rattle.std.specs.Prelude.{◌≡◌, ◌≤◌, [], ◌∷◌, refl};
ghost use Rattle.grading.specs.Grading.{three_graded, three_class, three_compared};
ghost use Rattle.grading.specs.Steps.{three_sorted};
ghost use Rattle.grading.specs.Three.{three_hand, three_of, three_order, three_parts};
ghost use Rattle.grading.specs.ThreeClasses.{three_below};
ghost use Rattle.grading.specs.Parts.{by_parts_turned, by_parts_chained, by_parts_alike, by_parts_first};

use crate::cards::{are_of_one_suit, rank_of};
use crate::comparisons::Comparison;
use crate::hands::Hand;
use crate::of_cards::OfCards;
use crate::order::Order;
use crate::ranks::{head_of, in_order};
use crate::three_classes::ThreeClass;

// A graded hand: its class, and the ranks that it is compared by within the class, 0 in places not in use, so that all compare alike.
#[derive(Clone, Copy, PartialEq, Eq, PartialOrd, Ord)]
pub struct ThreeHand {
    class: ThreeClass,
    ranks: [u8; 3],
}

// The hand of three ranks from the highest, of one suit or not.
fn by_ranks(high: u8, middle: u8, low: u8, one_suit: bool) -> ThreeHand
    requires { low ≤ 15 }
    ensures { result ≡ three_sorted high middle low one_suit }
{
    if high == low {
        return ThreeHand {
            class: ThreeClass::Three,
            ranks: [high, 0, 0],
        };
    }
    if high == middle {
        return ThreeHand {
            class: ThreeClass::Pair,
            ranks: [high, low, 0],
        };
    }
    if middle == low {
        return ThreeHand {
            class: ThreeClass::Pair,
            ranks: [middle, high, 0],
        };
    }
    match head_of(3, high, middle, low) {
        Some(head) => {
            let class = if one_suit {
                ThreeClass::StraightFlush
            } else {
                ThreeClass::Straight
            };
            ThreeHand {
                class,
                ranks: [head, 0, 0],
            }
        }
        None => {
            let class = if one_suit {
                ThreeClass::Flush
            } else {
                ThreeClass::OddCards
            };
            ThreeHand {
                class,
                ranks: [high, middle, low],
            }
        }
    }
}

impl OfCards for ThreeHand {
    type Class = ThreeClass;

    ghost SIZE = { 3 };

    ghost hand = { three_hand };

    ghost class_of = { λ h. h.class };

    ghost is_of = { three_of };

    const SIZE: usize = 3;

    fn of_cards(cards: &[u8]) -> ThreeHand {
        let [low, middle, high] = in_order::<3>(cards);
        by_ranks(
            rank_of(high),
            rank_of(middle),
            rank_of(low),
            are_of_one_suit(cards),
        )
    }
}

impl Hand for ThreeHand {
    ghost graded = { three_graded };

    ghost classed = { three_class };

    ghost compared = { three_compared };

    ghost grades = { unfold three_graded in λ cs. refl };

    ghost classes = { unfold three_class in λ cs. refl };

    ghost compares = { unfold three_compared in λ cs ds. refl };

    ghost by_class = { unfold three_order in λ x y. by_parts_first (three_below x.class) (three_below y.class) (x.ranks ∷ []) (y.ranks ∷ []) };

    fn class(&self) -> ThreeClass {
        self.class
    }
}

// Not one impl for all that are `Ord`: `compare` promises the order of this size by its own definition, `three_order`.
impl Order for ThreeHand {
    ghost order = { three_order };

    ghost turned = { unfold three_order in λ x y. by_parts_turned (three_parts x) (three_parts y) };

    ghost chained = { unfold three_order in λ x y z. by_parts_chained (three_parts x) (three_parts y) (three_parts z) };

    ghost alike = { unfold three_order in λ x y z. by_parts_alike (three_parts x) (three_parts y) (three_parts z) };

    fn compare(&self, other: &ThreeHand) -> Comparison {
        Comparison::from(self.cmp(other))
    }
}
