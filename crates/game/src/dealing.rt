// Whether cards are a lawful deal, and why not: one is no card (or stands where it may not), or their number is not the one called for.
ghost use Rattle.std.specs.Prelude.{◌≡◌, Some, Err};
ghost use Rattle.game.specs.Causes.{dealing_cause};
ghost use Rattle.game.specs.Dealing.{judged};

use refusals::Cause;

/// Why cards are no lawful deal.
#[derive(Clone, Copy, PartialEq, Eq, Debug)]
pub enum Misdeal {
    NoCard,
    WrongCount,
}

/// Returns `Ok` where each card may stand in the deal and there are as many as are called for; refuses a wrong card before a wrong number.
pub fn judge(may_stand: bool, count: usize, called: usize) -> Result<(), Misdeal>
    ensures { result ≡ judged may_stand count called }
{
    if !may_stand {
        Err(Misdeal::NoCard)
    } else if count != called {
        Err(Misdeal::WrongCount)
    } else {
        Ok(())
    }
}

impl From<Misdeal> for Cause {
    ghost from_gives = { λ misdeal cause. Some cause ≡ dealing_cause (Err misdeal) };

    fn from(misdeal: Misdeal) -> Cause {
        match misdeal {
            Misdeal::NoCard => Cause::NoCard,
            Misdeal::WrongCount => Cause::WrongCount,
        }
    }
}
