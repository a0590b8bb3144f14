// Deals that were worked by hand, as one fact about the rules.
ghost use Rattle.std.specs.Prelude.{◌≡◌, Ok, Err};
ghost use Rattle.game.specs.declared.dealing.Misdeal.TheVariants.{WrongCount};
ghost use Rattle.games.specs.Checked.{CheckedDeals};

use game::dealing::Misdeal;

/// States the deals of all games as one fact; returns whether that of Makccarat is lawful in the first way and in the second.
pub fn checked_deals() -> (Result<(), Misdeal>, Result<(), Misdeal>)
    ensures stands { CheckedDeals }
    ensures answers { result ≡ (Ok tt, Err WrongCount) }
{
    let (first, second) = makccarat::checked::checked_deals();
    (first, second)
}
