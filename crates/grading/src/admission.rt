// Which lists of bytes are hands of a size, and why the others are refused.
ghost use Rattle.std.specs.Prelude.{◌≡◌};
ghost use Rattle.grading.specs.Admission.{hand_causes, hands_causes, unless};
ghost use Rattle.refusals.specs.Refusals.{first_cause};

use crate::cards::are_different_cards;
use refusals::{Cause, Refusal};

// Refuses bytes that are not a hand of this size: 12 before 13.
pub(crate) fn admit(size: usize, cards: &[u8]) -> Result<(), Refusal>
    ensures { result ≡ unless (first_cause (hand_causes size cards.now)) tt }
{
    if !are_different_cards(cards) {
        return Err(Refusal::new(Cause::NoCard, 0));
    }
    if cards.len() != size {
        return Err(Refusal::new(Cause::WrongCount, 0));
    }
    Ok(())
}

// Refuses where either is not a hand of this size: 12 for either before 13.
pub(crate) fn admit_both(size: usize, first: &[u8], second: &[u8]) -> Result<(), Refusal>
    ensures { result ≡ unless (first_cause (hands_causes size first.now second.now)) tt }
{
    let first_cards = are_different_cards(first);
    let second_cards = are_different_cards(second);
    if !first_cards || !second_cards {
        return Err(Refusal::new(Cause::NoCard, 0));
    }
    if first.len() != size || second.len() != size {
        return Err(Refusal::new(Cause::WrongCount, 0));
    }
    Ok(())
}
