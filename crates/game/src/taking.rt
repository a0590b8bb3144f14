// Whether a space takes a stake, and why not: it takes no bets, or it lacks its companion.
ghost use Rattle.std.specs.Prelude.{◌≡◌, Some, Err};
ghost use Rattle.game.specs.Causes.{taking_cause};

use refusals::Cause;

#[derive(Clone, Copy, PartialEq, Eq, Debug)]
pub enum Barred {
    NoBets,
    NoCompanion,
}

impl From<Barred> for Cause {
    ghost from_gives = { λ barred cause. Some cause ≡ taking_cause (Err barred) };

    fn from(barred: Barred) -> Cause {
        match barred {
            Barred::NoBets => Cause::NoBets,
            Barred::NoCompanion => Cause::NoCompanion,
        }
    }
}
