// Entries of the ledger: what one seat staked and got back in one round.
ghost use Rattle.std.specs.Prelude.{◌≡◌, Some};
ghost use Rattle.ledger.specs.Entries.{entry_answer};
ghost use Rattle.ledger.specs.Lines.{entry_line};
ghost use Rattle.ledger.specs.Sums.{summed};

use crate::seated::NamesSeat;
use crate::sums;
use crate::sums::{MOST_AMOUNT, SignedAmount};
use itoa::Buffer;
use refusals::{Cause, Refusal};
use std::fmt;

// The net is the return less what was staked, below zero where the seat lost.
#[derive(Clone, Copy, PartialEq, Eq, Debug)]
pub struct Entry {
    pub round: u32,
    pub seat: u8,
    pub staked: u64,
    pub returned: u64,
    pub net: i64,
}

impl Entry {
    // The entry of a seat in a round, refused where an amount passes the limit.
    pub fn new(round: u32, seat: u8, staked: u64, returned: u64) -> Result<Entry, Refusal>
        ensures { result ≡ entry_answer round seat staked returned }
    {
        if staked > MOST_AMOUNT as u64 || returned > MOST_AMOUNT as u64 {
            return Err(Refusal::new(Cause::TotalTooLarge, seat));
        }
        Ok(Entry {
            round,
            seat,
            staked,
            returned,
            net: returned as i64 - staked as i64,
        })
    }
}

impl NamesSeat for Entry {
    ghost seat_of = { λ e. e.seat };

    fn seat(&self) -> u8 {
        self.seat
    }
}

impl SignedAmount for Entry {
    ghost amount_of = { λ e. e.net };

    fn amount(&self) -> i64 {
        self.net
    }
}

// The sum of entries by their net.
pub fn sum_by_net(entries: &[Entry]) -> Result<i64, Refusal>
    ensures { result ≡ summed (λ e. e.net) entries.now }
{
    sums::sum(entries)
}

impl fmt::Display for Entry {
    ghost output = { λ e. Some (entry_line e) };

    fn fmt<W: fmt::Write>(&self, f: &mut fmt::Formatter<W>) -> fmt::Result {
        // most lines are of entries, and `itoa` takes fewer instructions for their digits than `{}`
        let mut round = Buffer::new();
        let mut seat = Buffer::new();
        let mut staked = Buffer::new();
        let mut returned = Buffer::new();
        let mut net = Buffer::new();
        write!(
            f,
            "E {} {} {} {} {}",
            round.format(self.round),
            seat.format(self.seat),
            staked.format(self.staked),
            returned.format(self.returned),
            net.format(self.net)
        )
    }
}
