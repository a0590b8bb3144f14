// What a game asks of the conditions that it is opened with.
ghost use Rattle.std.specs.Prelude.{◌≡◌};
ghost use Rattle.game.specs.Opening.{admitted};

use refusals::{Cause, Refusal};

/// Returns `Ok` where the conditions are met, and otherwise refusal 18, which names no seat.
pub fn admit(met: bool) -> Result<(), Refusal>
    ensures { result ≡ admitted met }
{
    if met {
        Ok(())
    } else {
        Err(Refusal::new(Cause::BadConditions, 0))
    }
}
