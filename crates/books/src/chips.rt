// Lifted chips: taken from a seat's spaces, to be placed on a pile before they are let go.
ghost use Rattle.std.specs.Prelude.{◌≡◌, ℕ, ◌+◌, ◌^◌, ◌<◌};
ghost use Rattle.books.specs.Books.{laid, lifted, with_rack, unchosen};

use crate::seat::Seat;
use game::choice::Choice;

// Chips taken from a seat's spaces and not yet placed: a number, beside the books. Only placed chips may be let go.
pub struct Lifted {
    chips: u64,
}

impl Drop for Lifted {
    fn drop(self)
        requires { self.chips ≡ 0 }
    {
        let Lifted { chips: _ } = self;
    }
}

impl Lifted {
    // Places the lifted chips on a pile, which is the tray or a rack.
    fn place(&mut self, pile: &mut u64)
        requires some { 0 < self.old.chips }
        requires fits { pile.old + self.old.chips < 2 ^ 64 }
        ensures pile { pile.new ≡ pile.old + self.old.chips }
        ensures placed { self.new.chips ≡ 0 }
    {
        *pile += self.chips;
        self.chips = 0;
    }
}

impl Seat {
    // Lifts the seat's stakes and raise from its spaces.
    fn lift(&mut self) -> Lifted
        requires { self.old.raised < 2 ^ 40 }
        ensures chips { result.chips ≡ laid self.old }
        ensures seat { self.new ≡ lifted self.old }
    {
        let chips = self.laid();
        self.stakes = [0; 5];
        self.raised = 0;
        Lifted { chips }
    }

    // Moves the seat's stakes and raise to the tray, and tells how many chips they were.
    pub(crate) fn collect(&mut self, tray: &mut u64) -> u64
        requires raise { self.old.raised < 2 ^ 40 }
        requires some { 0 < laid self.old }
        requires fits { tray.old + laid self.old < 2 ^ 64 }
        ensures chips { result ≡ laid self.old }
        ensures seat { self.new ≡ lifted self.old }
        ensures tray { tray.new ≡ tray.old + laid self.old }
    {
        let mut lifted = self.lift();
        let chips = lifted.chips;
        lifted.place(tray);
        chips
    }

    // Moves the seat's stakes and raise back to its rack.
    pub fn take_back(&mut self)
        requires raise { self.old.raised < 2 ^ 40 }
        requires fits { self.old.rack + laid self.old < 2 ^ 64 }
        ensures { self.new ≡ with_rack (lifted self.old) (self.old.rack + laid self.old) }
    {
        let mut lifted = self.lift();
        if lifted.chips > 0 {
            lifted.place(&mut self.rack);
        }
    }

    // Pays chips into the seat's rack; its choice is over.
    pub(crate) fn pay(&mut self, chips: u64)
        requires { self.old.rack + chips < 2 ^ 64 }
        ensures { self.new ≡ unchosen (with_rack self.old (self.old.rack + chips)) }
    {
        self.rack += chips;
        self.end_choice();
    }

    // The seat's choice is over, and nothing else changes.
    pub fn end_choice(&mut self)
        ensures { self.new ≡ unchosen self.old }
    {
        self.choice = Choice::Open;
    }
}
