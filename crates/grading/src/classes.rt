// What the classes of every size of hand promise.
ghost use Rattle.std.specs.Prelude.{◌≡◌, ℕ, List, Some};
ghost use Rattle.std.specs.Ordering.{nat_cmp};

use std::fmt;

pub trait HandClass: Copy + Ord + fmt::Display {
    // the words for a class in print
    ghost words: { Self → List ℕ };

    // how many classes are lower
    ghost lower: { Self → ℕ };

    // The words for a class in print.
    fn word(self) -> &'static str
        ensures { result.now ≡ words self };

    // How many classes are lower.
    fn below(self) -> u8
        ensures { result ≡ lower self };

    // a class is printed as its words
    ghost printed: { (k : Self) → Self.output k ≡ Some (words k) };

    // a class above more classes is the greater
    ghost upward: { (j k : Self) → Self.cmp j k ≡ nat_cmp (lower j) (lower k) };
}
