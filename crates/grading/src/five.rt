// Hands of five cards: grading them, and their order.
ghost use Rattle.std.specs.Prelude.{◌≡◌, ◌≤◌, true, [], ◌∷◌, refl};
ghost use Rattle.grading.specs.Admission.{is_hand};
ghost use Rattle.grading.specs.Five.{five_hand, five_of, five_order, five_ranked, suit_counts, deciding_suit, five_parts};
ghost use Rattle.grading.specs.FiveClasses.{five_below};
ghost use Rattle.grading.specs.Grading.{five_graded, five_class, five_compared};
ghost use Rattle.grading.specs.Laws.{FiveOnly};
ghost use Rattle.grading.specs.Steps.{five_at, five_sorted, five_paired};
ghost use Rattle.grading.specs.Parts.{by_parts_turned, by_parts_chained, by_parts_alike, by_parts_first};

use crate::cards::{are_of_one_suit, highest_suit, rank_of};
use crate::comparisons::Comparison;
use crate::five_classes::FiveClass;
use crate::hands::Hand;
use crate::of_cards::OfCards;
use crate::order::Order;
use crate::ranks::{head_of, in_order};

// A graded hand: its class, the ranks that it is compared by within the class, 0 in places not in use, and the suit that decides
// where these are level, 0 where none does: zeros and no Option, so that hands compare as these parts do, in order.
#[derive(Clone, Copy, PartialEq, Eq, PartialOrd, Ord)]
pub struct FiveHand {
    class: FiveClass,
    ranks: [u8; 5],
    suit: u8,
}

// What ranks alone, and whether the cards are of one suit, tell of a hand: no hand yet, which has a suit besides.
#[derive(Clone, Copy)]
struct Ranked {
    class: FiveClass,
    ranks: [u8; 5],
}

// A hand that is compared by one rank alone.
fn by_one_rank(class: FiveClass, rank: u8) -> Ranked
    ensures { result ≡ five_at class rank 0 0 0 0 }
{
    Ranked {
        class,
        ranks: [rank, 0, 0, 0, 0],
    }
}

// Five ranks from the highest, of which some are alike, but no three.
fn by_pairs(a: u8, b: u8, c: u8, d: u8, e: u8) -> Ranked
    ensures { result ≡ five_paired a b c d e }
{
    if a == b && c == d {
        return Ranked {
            class: FiveClass::TwoPairs,
            ranks: [a, c, e, 0, 0],
        };
    }
    if a == b && d == e {
        return Ranked {
            class: FiveClass::TwoPairs,
            ranks: [a, d, c, 0, 0],
        };
    }
    if b == c && d == e {
        return Ranked {
            class: FiveClass::TwoPairs,
            ranks: [b, d, a, 0, 0],
        };
    }
    if a == b {
        return Ranked {
            class: FiveClass::Pair,
            ranks: [a, c, d, e, 0],
        };
    }
    if b == c {
        return Ranked {
            class: FiveClass::Pair,
            ranks: [b, a, d, e, 0],
        };
    }
    if c == d {
        return Ranked {
            class: FiveClass::Pair,
            ranks: [c, a, b, e, 0],
        };
    }
    Ranked {
        class: FiveClass::Pair,
        ranks: [d, a, b, c, 0],
    }
}

// Five ranks from the highest, of one suit or not.
fn by_ranks(a: u8, b: u8, c: u8, d: u8, e: u8, one_suit: bool) -> Ranked
    requires { e ≤ 15 }
    ensures { result ≡ five_sorted a b c d e one_suit }
{
    if a == d || b == e {
        return by_one_rank(FiveClass::Four, c);
    }
    if (a == c && d == e) || (a == b && c == e) {
        return by_one_rank(FiveClass::FullHouse, c);
    }
    if a == c || b == d || c == e {
        return by_one_rank(FiveClass::Three, c);
    }
    if a == b || b == c || c == d || d == e {
        return by_pairs(a, b, c, d, e);
    }
    match head_of(5, a, b, e) {
        Some(head) => {
            let class = if !one_suit {
                FiveClass::Straight
            } else if head == 14 {
                FiveClass::RoyalFlush
            } else {
                FiveClass::StraightFlush
            };
            by_one_rank(class, head)
        }
        None => {
            let class = if one_suit {
                FiveClass::Flush
            } else {
                FiveClass::OddCards
            };
            Ranked {
                class,
                ranks: [a, b, c, d, e],
            }
        }
    }
}

// Whether a suit decides between hands of a class whose ranks are level.
fn suit_counts(class: FiveClass) -> bool
    ensures { result ≡ suit_counts class }
{
    match class {
        FiveClass::Four | FiveClass::FullHouse | FiveClass::Three => false,
        _ => true,
    }
}

// The class of five different cards, and the ranks that they are compared by.
fn ranks_of(cards: &[u8]) -> Ranked
    requires { is_hand 5 cards.now ≡ true }
    ensures ranked { result ≡ five_ranked cards.now }
    ensures only { FiveOnly cards.now result.class }
{
    let [e, d, c, b, a] = in_order::<5>(cards);
    by_ranks(
        rank_of(a),
        rank_of(b),
        rank_of(c),
        rank_of(d),
        rank_of(e),
        are_of_one_suit(cards),
    )
}

// The suit that decides where ranks are level: the highest in which the cards hold the first rank that they are compared by.
fn deciding_suit(ranked: Ranked, cards: &[u8]) -> u8
    ensures { result ≡ deciding_suit ranked cards.now }
{
    if suit_counts(ranked.class) {
        highest_suit(cards, ranked.ranks[0])
    } else {
        0
    }
}

impl OfCards for FiveHand {
    type Class = FiveClass;

    ghost SIZE = { 5 };

    ghost hand = { five_hand };

    ghost class_of = { λ h. h.class };

    ghost is_of = { five_of };

    const SIZE: usize = 5;

    fn of_cards(cards: &[u8]) -> FiveHand {
        let ranked = ranks_of(cards);
        let suit = deciding_suit(ranked, cards);
        let Ranked { class, ranks } = ranked;
        FiveHand { class, ranks, suit }
    }
}

impl Hand for FiveHand {
    ghost graded = { five_graded };

    ghost classed = { five_class };

    ghost compared = { five_compared };

    ghost grades = { unfold five_graded in λ cs. refl };

    ghost classes = { unfold five_class in λ cs. refl };

    ghost compares = { unfold five_compared in λ cs ds. refl };

    ghost by_class = { unfold five_order in λ x y. by_parts_first (five_below x.class) (five_below y.class) (x.ranks ∷ (x.suit ∷ []) ∷ []) (y.ranks ∷ (y.suit ∷ []) ∷ []) };

    fn class(&self) -> FiveClass {
        self.class
    }
}

// Not one impl for all that are `Ord`: `compare` promises the order of this size by its own definition, `five_order`.
impl Order for FiveHand {
    ghost order = { five_order };

    ghost turned = { unfold five_order in λ x y. by_parts_turned (five_parts x) (five_parts y) };

    ghost chained = { unfold five_order in λ x y z. by_parts_chained (five_parts x) (five_parts y) (five_parts z) };

    ghost alike = { unfold five_order in λ x y z. by_parts_alike (five_parts x) (five_parts y) (five_parts z) };

    fn compare(&self, other: &FiveHand) -> Comparison {
        Comparison::from(self.cmp(other))
    }
}
