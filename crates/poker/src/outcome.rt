// How a round ends for a raised seat, and what its ante and its raise then bring.
ghost use Rattle.std.specs.Prelude.{◌≡◌, ◌+◌, ◌*◌, ◌^◌, ◌<◌, ◌≤◌};
ghost use Rattle.poker.specs.Outcome.{outcome, ante_return, raise_return};

use grading::Comparison;
use refusals::Refusal;

/// How a round ends for a raised seat: the bank did not open, or it opened and the seat won, tied or lost.
#[derive(Clone, Copy, PartialEq, Eq, Debug)]
pub enum Outcome {
    Unopened,
    Won,
    Tied,
    Lost,
}

impl Outcome {
    // By how the seat's hand compares with the bank's, and whether the bank opens.
    pub(crate) fn of(compared: Result<Comparison, Refusal>, opens: bool) -> Outcome
        ensures { result ≡ outcome compared opens }
    {
        match compared {
            Err(_) => Outcome::Lost,
            Ok(_) if !opens => Outcome::Unopened,
            Ok(Comparison::Higher) => Outcome::Won,
            Ok(Comparison::Alike) => Outcome::Tied,
            Ok(Comparison::Lower) => Outcome::Lost,
        }
    }

    // The ante pays 1 to 1 where the bank does not open or the seat wins, and comes back at a tie.
    pub(crate) fn ante_return(self, ante: u32) -> u64
        ensures told { result ≡ ante_return self ante }
        ensures bound { result ≤ 2 * ante }
    {
        match self {
            Outcome::Unopened | Outcome::Won => 2 * ante as u64,
            Outcome::Tied => ante as u64,
            Outcome::Lost => 0,
        }
    }

    // The raise comes back where the bank does not open and at a tie; where the seat wins it is paid besides.
    pub(crate) fn raise_return(self, raise: u64, paid: u64) -> u64
        requires { raise + paid < 2 ^ 63 }
        ensures told { result ≡ raise_return self raise paid }
        ensures bound { result ≤ raise + paid }
    {
        match self {
            Outcome::Won => raise + paid,
            Outcome::Unopened | Outcome::Tied => raise,
            Outcome::Lost => 0,
        }
    }
}
