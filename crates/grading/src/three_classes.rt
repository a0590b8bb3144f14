// The classes of three cards, upward.
ghost use Rattle.std.specs.Prelude.{Some, refl};
ghost use Rattle.std.proofs.Common.{rules};
ghost use Rattle.grading.specs.ThreeClasses.{three_word, three_below};

use crate::classes::HandClass;
use std::fmt;

#[derive(Clone, Copy, PartialEq, Eq, PartialOrd, Ord, Debug)]
pub enum ThreeClass {
    OddCards,
    Pair,
    Flush,
    Straight,
    Three,
    StraightFlush,
}

impl HandClass for ThreeClass {
    ghost words = { three_word };

    ghost lower = { three_below };

    ghost printed = { λ k. refl };

    ghost upward = { λ j k. Prim.search rules };

    fn word(self) -> &'static str {
        match self {
            ThreeClass::OddCards => "odd cards",
            ThreeClass::Pair => "pair",
            ThreeClass::Flush => "flush",
            ThreeClass::Straight => "straight",
            ThreeClass::Three => "three of a kind",
            ThreeClass::StraightFlush => "straight flush",
        }
    }

    fn below(self) -> u8 {
        self as u8
    }
}

impl fmt::Display for ThreeClass {
    ghost output = { λ k. Some (three_word k) };

    fn fmt<W: fmt::Write>(&self, f: &mut fmt::Formatter<W>) -> fmt::Result {
        f.write_str(self.word())
    }
}
