// Stud's posted cap: the most that the raise is paid for the highest hands.
ghost use Rattle.std.specs.Prelude.{◌≡◌, true};
ghost use Rattle.poker.specs.Posting.{cap_postable};

/// A game of Stud, at its cap in chips.
#[derive(Clone, Copy)]
pub struct Stud {
    pub(crate) cap: u64,
    ghost posted: { cap_postable cap ≡ true },
}
