// One seat: its rack, the stakes on its spaces, the raise, and its choice.
ghost use Rattle.std.specs.Prelude.{◌≡◌, ℕ, ◌+◌, ◌^◌, ◌<◌, length, sum};
ghost use Rattle.books.specs.Books.{laid};

use game::choice::Choice;

// The stake on space s is at place s - 1. The raise stands beside them, since the game is asked about the stakes laid before the deal.
// It is a number beside the choice, since it is chips on a space: lifting them is one thing, and ending the choice another.
// Its bound is a clause of what sums chips: as a ghost field it would want a proof in each definition that makes a seat of any raise.
#[derive(Clone, Copy)]
pub struct Seat {
    pub rack: u64,
    pub stakes: [u32; 5],
    pub raised: u64,
    pub choice: Choice,
}

impl Seat {
    // The stakes on the seat's spaces, added.
    pub fn staked(&self) -> u64
        ensures sum { result ≡ sum self.now.stakes }
        ensures small { result < 2 ^ 40 }
    {
        // A `for`: that a sum by the library fits its type was not found.
        let mut staked = 0;
        for &stake in &self.stakes {
            staked += u64::from(stake);
        }
        staked
    }

    // The chips on the seat's spaces: its stakes and its raise.
    pub fn laid(&self) -> u64
        requires raise { self.now.raised < 2 ^ 40 }
        ensures { result ≡ laid self.now }
    {
        self.staked() + self.raised
    }
}
