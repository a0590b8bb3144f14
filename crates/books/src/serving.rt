// Serving a seat at the end of a round: its chips are lifted and placed, it is paid, and the ledger is told.
ghost use Rattle.std.specs.Prelude.{◌≡◌, ℕ, ◌+◌, ◌^◌, ◌<◌, ◌≤◌, [], ◌∷◌, length};
ghost use Rattle.ledger.specs.Entries.{entered};
ghost use Rattle.ledger.specs.Rolls.{free, Written};
ghost use Rattle.books.specs.Books.{laid, seat_at, served};

use crate::table_books::Books;
use ledger::entries::Entry;
use ledger::rolls::Roll;

impl Books {
    // Settles a seat that stakes, by its place, since tray and seat change together: its chips go to the tray, the tray pays what is returned, and the ledger gets an entry.
    pub fn serve(&mut self, seat: usize, returned: u64, ledger: &mut Roll<'_, Entry>)
        requires seat { seat < 7 }
        requires raise { (seat_at self.old seat).raised < 2 ^ 40 }
        requires some { 0 < laid (seat_at self.old seat) }
        requires fits { self.old.tray + laid (seat_at self.old seat) < 2 ^ 40 }
        requires covered { returned ≤ self.old.tray + laid (seat_at self.old seat) }
        requires rack { (seat_at self.old seat).rack + returned < 2 ^ 40 }
        requires room { 0 < free ledger.old }
        ensures books { self.new ≡ served self.old seat returned }
        ensures ledger { Written ledger.old ledger.new (entered self.old.rounds (seat + 1) (laid (seat_at self.old seat)) returned ∷ []) }
    {
        let round = self.rounds;
        let served = &mut self.seats[seat];
        let staked = served.collect(&mut self.tray);
        self.tray -= returned;
        served.pay(returned);
        // Not by `Entry::new`, which would refuse amounts past 1,000,000,000,000: here they are known to be below 2^40. The casts are proved to fit.
        let entry = Entry {
            round,
            seat: seat as u8 + 1,
            staked,
            returned,
            net: returned as i64 - staked as i64,
        };
        let _ = ledger.keep(entry);
    }
}
