// The classes of five cards, upward.
ghost use Rattle.std.specs.Prelude.{Some, refl};
ghost use Rattle.std.proofs.Common.{rules};
ghost use Rattle.grading.specs.FiveClasses.{five_word, five_below};

use crate::classes::HandClass;
use std::fmt;

#[derive(Clone, Copy, PartialEq, Eq, PartialOrd, Ord, Debug)]
pub enum FiveClass {
    OddCards,
    Pair,
    TwoPairs,
    Three,
    Straight,
    Flush,
    FullHouse,
    Four,
    StraightFlush,
    RoyalFlush,
}

impl HandClass for FiveClass {
    ghost words = { five_word };

    ghost lower = { five_below };

    ghost printed = { λ k. refl };

    ghost upward = { λ j k. Prim.search rules };

    fn word(self) -> &'static str {
        match self {
            FiveClass::OddCards => "odd cards",
            FiveClass::Pair => "pair",
            FiveClass::TwoPairs => "two pairs",
            FiveClass::Three => "three of a kind",
            FiveClass::Straight => "straight",
            FiveClass::Flush => "flush",
            FiveClass::FullHouse => "full house",
            FiveClass::Four => "four of a kind",
            FiveClass::StraightFlush => "straight flush",
            FiveClass::RoyalFlush => "royal flush",
        }
    }

    fn below(self) -> u8 {
        self as u8
    }
}

impl fmt::Display for FiveClass {
    ghost output = { λ k. Some (five_word k) };

    fn fmt<W: fmt::Write>(&self, f: &mut fmt::Formatter<W>) -> fmt::Result {
        f.write_str(self.word())
    }
}
