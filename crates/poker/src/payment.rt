// What a stake brings by the seat's choice.
ghost use Rattle.std.specs.Prelude.{◌≡◌, ◌≤◌};
ghost use Rattle.poker.specs.Payment.{if_raised, unless_left};

use game::choice::Choice;

// What is brought only to a seat that raised.
pub(crate) fn if_raised(choice: Choice, amount: u64) -> u64
    ensures told { result ≡ if_raised choice amount }
    ensures bound { result ≤ amount }
{
    match choice {
        Choice::Raised => amount,
        Choice::Open | Choice::Left => 0,
    }
}

// What is brought to every seat but one that left.
pub(crate) fn unless_left(choice: Choice, amount: u64) -> u64
    ensures told { result ≡ unless_left choice amount }
    ensures bound { result ≤ amount }
{
    match choice {
        Choice::Open | Choice::Raised => amount,
        Choice::Left => 0,
    }
}
