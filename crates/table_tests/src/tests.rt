// What the tests share: tables to call on, short forms of the commands, and calls whose answers are checked.
// A test that needs a table hands on to a function over any runtime: one that holds both `HostRuntime` and a table is not proved yet.
use commands::{Command, Conditions};
use ledger::closings::Closing;
use ledger::entries::Entry;
use ledger::rolls::Roll;
use open_table::open_table::OpenTable;
use open_table::part::Part;
use refusals::{Cause, Refusal};
use std::process::Abort;

mod opening; // Open.
mod chips; // Buy, Cash, Fill and Draw.
mod betting; // Bet and Deal.
mod choosing; // Raise and Leave.
mod ending; // Settle and Void.
mod foolish; // Arguments that no sane caller hands in.
mod histories; // A table with the history of its calls.

// The most chips that a table holds.
pub(crate) const LIMIT: u64 = 1_000_000_000_000;

pub(crate) const FORTUNE: Conditions = Conditions {
    game: 1,
    minimum: 10,
    maximum: 1_000,
    cap: 0,
    odds: [40, 25, 5, 4, 1],
};

pub(crate) const STUD: Conditions = Conditions {
    game: 2,
    minimum: 10,
    maximum: 1_000,
    cap: 3_000,
    odds: [0; 5],
};

pub(crate) const MAKCCARAT: Conditions = Conditions {
    game: 3,
    minimum: 10,
    maximum: 1_000,
    cap: 0,
    odds: [0; 5],
};

pub(crate) const SECOND_WAY: Conditions = Conditions {
    game: 4,
    minimum: 10,
    maximum: 1_000,
    cap: 0,
    odds: [8, 11, 0, 0, 0],
};

// A lawful deal in both ways of Makccarat: the player wins by nine to eight.
pub(crate) const NINE_TO_EIGHT: [u8; 4] = [0x91, 0x40, 0xD2, 0x43];

// An entry that no settlement writes.
pub(crate) const MARK: Entry = Entry {
    round: 77,
    seat: 77,
    staked: 77,
    returned: 77,
    net: 0,
};

pub(crate) fn buy(seat: u8, amount: u64) -> Command<'static> {
    Command::Buy { seat, amount }
}

pub(crate) fn cash(seat: u8, amount: u64) -> Command<'static> {
    Command::Cash { seat, amount }
}

pub(crate) fn fill(amount: u64) -> Command<'static> {
    Command::Fill { amount }
}

pub(crate) fn draw(amount: u64) -> Command<'static> {
    Command::Draw { amount }
}

pub(crate) fn bet(seat: u8, space: u8, amount: u32) -> Command<'static> {
    Command::Bet {
        seat,
        space,
        amount,
    }
}

pub(crate) fn deal(cards: &[u8]) -> Command<'_> {
    Command::Deal { cards }
}

pub(crate) fn raise(seat: u8) -> Command<'static> {
    Command::Raise { seat }
}

pub(crate) fn leave(seat: u8) -> Command<'static> {
    Command::Leave { seat }
}

// Performs a command with places enough in the ledger, which is not looked at.
pub(crate) fn perform(table: &mut OpenTable, command: Command<'_>) -> Result<(), Refusal> {
    let mut slots = [MARK; 7];
    table.perform(command, &mut Roll::new(&mut slots))
}

// Performs commands in order, of which none is to be refused.
pub(crate) fn perform_all(table: &mut OpenTable, commands: &[Command<'_>]) -> Result<(), Refusal> {
    for command in commands {
        perform(table, *command)?;
    }
    Ok(())
}

// Racks, spaces, and both together.
fn sums(table: &OpenTable) -> [Result<i64, Refusal>; 3] {
    [
        table.sum_of_seats(Part::Rack),
        table.sum_of_seats(Part::Spaces),
        table.sum_of_seats(Part::Chips),
    ]
}

// A command is refused so with this ledger, and neither ledger nor chips are touched.
pub(crate) fn check_refused_with(
    rt: &impl Abort,
    table: &mut OpenTable,
    ledger: &mut Roll<'_, Entry>,
    command: Command<'_>,
    cause: Cause,
    seat: u8,
) {
    let (closing, racks, free) = (table.closing(), sums(table), ledger.free());
    let answer = table.perform(command, ledger);
    assert_eq!(rt; answer, Err(Refusal { cause, seat }), "{}", command.name());
    assert_eq!(rt; table.closing(), closing, "{}", command.name());
    assert_eq!(rt; sums(table), racks, "{}", command.name());
    assert_eq!(rt; ledger.free(), free, "{}", command.name());
}

// A command is refused so, and changes nothing.
pub(crate) fn check_refused(
    rt: &impl Abort,
    table: &mut OpenTable,
    command: Command<'_>,
    cause: Cause,
    seat: u8,
) {
    let mut slots = [MARK; 7];
    let mut ledger = Roll::new(&mut slots);
    check_refused_with(rt, table, &mut ledger, command, cause, seat);
    assert!(rt; slots == [MARK; 7]);
}

// A command is accepted, and the chips lie so behind it.
pub(crate) fn check_done(
    rt: &impl Abort,
    table: &mut OpenTable,
    command: Command<'_>,
    chips: [u64; 3],
) {
    let [tray, racks, spaces] = chips;
    let closing = Closing {
        tray,
        racks,
        spaces,
    };
    assert_eq!(rt; perform(table, command), Ok(()), "{}", command.name());
    assert_eq!(rt; table.closing(), closing, "{}", command.name());
}
