// A deal on which the two ways part: ranks 4, 2, 3, 3, 2, 9.
ghost use Rattle.std.specs.Prelude.{◌≡◌, Ok, Err};
ghost use Rattle.game.specs.declared.dealing.Misdeal.TheVariants.{WrongCount};
ghost use Rattle.makccarat.specs.Laws.{CheckedDeals};

use crate::round::dealing;
use crate::way::Way;
use game::dealing::Misdeal;

/// Returns whether that deal is lawful in the first way and in the second, here in diamonds; the contract says it for every suit.
pub fn checked_deals() -> (Result<(), Misdeal>, Result<(), Misdeal>)
    ensures stands { CheckedDeals }
    ensures answers { result ≡ (Ok tt, Err WrongCount) }
{
    let cards = [0x40, 0x20, 0x30, 0x30, 0x20, 0x90];
    (dealing(Way::First, &cards), dealing(Way::Second, &cards))
}
