// What a table holds: its total, the ceilings it has to cover, who stakes, and which choices are due.
ghost use Rattle.std.specs.Prelude.{◌≡◌, ℕ, ◌+◌, ◌<◌, ◌≤◌, slice_index_or};
ghost use Rattle.game.specs.Rules.{Small};
ghost use Rattle.books.specs.Books.{nobody, seat_at};
ghost use Rattle.table.specs.Holdings.{total, ceilings, does_stake, stakers, staking, due, missing};
ghost use Rattle.table.specs.Single.{sound_one};
ghost use Rattle.table.specs.Soundness.{Sound};

use books::seat::Seat;
use books::table_books::Books;
use game::choice::Choice;
use game::interface::Game;

// The most chips that a table holds.
pub const LIMIT: u64 = 1_000_000_000_000;

// The most rounds that are dealt.
pub const MOST_ROUNDS: u32 = 1_000_000;

// One game's table. That the game stays is a promise of each call: taken out of the table, it could not bear on what is sound.
// Every value of the type has sound books; after `by` stands that being sound has one proof at most.
#[derive(Drop)]
pub struct Table<G: Game> {
    pub(crate) game: G,
    pub(crate) books: Books,
    pub ghost sound: { Sound (G.rules game) books } by { sound_one (G.rules game) books },
}

// Whether the seat stakes.
pub(crate) fn does_stake(seat: &Seat) -> bool
    ensures { result ≡ does_stake seat.now }
{
    seat.staked() > 0
}

impl<G: Game> Table<G> {
    // The books, to look at.
    pub fn books(&self) -> &Books
        ensures { result.now ≡ self.now.books }
    {
        &self.books
    }

    // Tray, racks and spaces.
    pub(crate) fn total(&self) -> u64
        ensures { result ≡ total self.now.books }
    {
        let mut total = self.books.tray;
        for seat in &self.books.seats {
            total += seat.rack + seat.laid();
        }
        total
    }

    // The ceilings of all seats, added.
    pub(crate) fn ceilings(&self, seats: &[Seat; 7]) -> u64
        requires { (k : ℕ) → k < 7 → Small (slice_index_or seats.now k nobody).stakes }
        ensures { result ≡ ceilings (G.rules self.now.game) seats.now }
    {
        let mut ceilings = 0;
        for seat in seats {
            ceilings += self.game.ceiling(&seat.stakes);
        }
        ceilings
    }

    // Who stakes, from the first seat on.
    pub(crate) fn staking(&self) -> [bool; 7]
        ensures { result ≡ staking self.now.books }
    {
        self.books.seats.map(|seat| does_stake(&seat))
    }

    // How many seats stake.
    pub(crate) fn stakers(&self) -> usize
        ensures { result ≡ stakers self.now.books }
    {
        self.books
            .seats
            .iter()
            .filter(|seat| does_stake(seat))
            .count()
    }

    // Whether a choice is due at the seat.
    pub(crate) fn is_due(&self, seat: &Seat) -> bool
        ensures { result ≡ due (G.rules self.now.game) seat.now }
    {
        match seat.choice {
            Choice::Open => self.game.chooses(&seat.stakes),
            _ => false,
        }
    }

    // The number of the lowest seat whose choice is missing.
    pub(crate) fn missing(&self) -> Option<u8>
        ensures { result ≡ missing (G.rules self.now.game) self.now.books }
    {
        let place = self.books.seats.iter().position(|seat| self.is_due(seat))?;
        // A cast that is proved to fit: a conversion would have an error that cannot be.
        Some(place as u8 + 1)
    }
}
