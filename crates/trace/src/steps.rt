// What is printed of one command: its answer, and where the chips lie then.
ghost use Rattle.std.specs.Prelude.{◌≡◌, ◌++◌, Some, refl, OnOk};
ghost use Rattle.trace.specs.Lines.{step_line, piles_line, seats_line, sums_line, printed_step, printed_piles, printed_seats, printed_sums, position_text};

use history::positions::Position;
use lines::printed::{Displayed, Printed};
use refusals::Refusal;
use std::alloc::AllocError;
use std::fmt;

// One command: the place of its first byte, its name, and its answer.
#[derive(Clone, Copy)]
pub struct Step<'a> {
    pub place: usize,
    pub name: &'a str,
    pub answer: Result<(), Refusal>,
}

impl fmt::Display for Step<'_> {
    ghost output = { λ s. Some (step_line s) };

    fn fmt<W: fmt::Write>(&self, f: &mut fmt::Formatter<W>) -> fmt::Result {
        match self.answer {
            Ok(()) => write!(f, "{} {} accepted", self.place, self.name),
            Err(refusal) => write!(
                f,
                "{} {} refused {} {} {}",
                self.place,
                self.name,
                refusal.cause.number(),
                refusal.seat,
                refusal.cause.layer()
            ),
        }
    }
}

impl Displayed for Step<'_> {
    ghost shown_as = { printed_step };

    ghost displayed = { λ _. refl };
}

// The tray, all racks together and all spaces together.
#[derive(Clone, Copy)]
pub struct Piles {
    pub position: Position,
}

impl fmt::Display for Piles {
    ghost output = { λ p. Some (piles_line p.position) };

    fn fmt<W: fmt::Write>(&self, f: &mut fmt::Formatter<W>) -> fmt::Result {
        let p = self.position;
        write!(f, "tray {} racks {} spaces {}", p.tray, p.racks, p.spaces)
    }
}

impl Displayed for Piles {
    ghost shown_as = { printed_piles };

    ghost displayed = { λ _. refl };
}

// The chips at each seat, in its rack and on its spaces. Seven fields and no array, of whose elements a text is not proved yet.
#[derive(Clone, Copy)]
pub struct Seats {
    pub seat_1: u64,
    pub seat_2: u64,
    pub seat_3: u64,
    pub seat_4: u64,
    pub seat_5: u64,
    pub seat_6: u64,
    pub seat_7: u64,
}

impl fmt::Display for Seats {
    ghost output = { λ s. Some (seats_line s) };

    fn fmt<W: fmt::Write>(&self, f: &mut fmt::Formatter<W>) -> fmt::Result {
        write!(
            f,
            "seats {} {} {} {} {} {} {}",
            self.seat_1,
            self.seat_2,
            self.seat_3,
            self.seat_4,
            self.seat_5,
            self.seat_6,
            self.seat_7
        )
    }
}

impl Displayed for Seats {
    ghost shown_as = { printed_seats };

    ghost displayed = { λ _. refl };
}

// The opening tray and what was brought, beside all that is there and what was taken away.
#[derive(Clone, Copy)]
pub struct Sums {
    pub position: Position,
}

impl fmt::Display for Sums {
    ghost output = { λ p. Some (sums_line p.position) };

    fn fmt<W: fmt::Write>(&self, f: &mut fmt::Formatter<W>) -> fmt::Result {
        let p = self.position;
        write!(
            f,
            "sum {} + {} = {} + {} + {} + {}",
            p.opening_tray, p.deposited, p.tray, p.racks, p.spaces, p.withdrawn
        )
    }
}

impl Displayed for Sums {
    ghost shown_as = { printed_sums };

    ghost displayed = { λ _. refl };
}

// Prints where the chips lie; where memory runs out some of the lines may be printed.
pub(crate) fn print_position(page: &mut Vec<u8>, position: Position) -> Result<(), AllocError>
    ensures { OnOk result (page.new.items ≡ page.old.items ++ position_text position) }
{
    Piles { position }.print(page)?;
    Seats {
        seat_1: position.seats[0],
        seat_2: position.seats[1],
        seat_3: position.seats[2],
        seat_4: position.seats[3],
        seat_5: position.seats[4],
        seat_6: position.seats[5],
        seat_7: position.seats[6],
    }
    .print(page)?;
    Sums { position }.print(page)
}
