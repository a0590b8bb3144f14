// The command: one request to the table. A sheet is read into it, and the table decides it.
#![tactic(auto)]

ghost use Rattle.std.specs.Prelude.{◌≡◌};
ghost use Rattle.commands.specs.Calls.{call_of, name_of, seat_named};

// The conditions under which a table is opened: which game, the bounds of a stake, and what the game posts.
// The game is a number, since a sheet may name one that there is not; opening a table refuses that.
#[derive(Clone, Copy)]
pub struct Conditions {
    pub game: u8,
    pub minimum: u32,
    pub maximum: u32,
    pub cap: u64,
    pub odds: [u16; 5],
}

// A deal borrows its cards from the sheet it was read from.
#[derive(Clone, Copy)]
pub enum Command<'a> {
    Open { conditions: Conditions, tray: u64 },
    Buy { seat: u8, amount: u64 },
    Cash { seat: u8, amount: u64 },
    Fill { amount: u64 },
    Draw { amount: u64 },
    Bet { seat: u8, space: u8, amount: u32 },
    Deal { cards: &'a [u8] },
    Raise { seat: u8 },
    Leave { seat: u8 },
    Settle,
    Void,
}

impl Command<'_> {
    // The seat that the command names, as handed in; 0 where it names none, as a refusal has it.
    pub fn seat(&self) -> u8
        ensures { result ≡ seat_named (call_of self.now) }
    {
        match self {
            Command::Buy { seat, .. } | Command::Cash { seat, .. } => *seat,
            Command::Bet { seat, .. } => *seat,
            Command::Raise { seat } | Command::Leave { seat } => *seat,
            _ => 0,
        }
    }

    // The word for the command alone: a `Display` would have to show its operands too.
    pub fn name(&self) -> &'static str
        ensures { result.now ≡ name_of (call_of self.now) }
    {
        match self {
            Command::Open { .. } => "Open",
            Command::Buy { .. } => "Buy",
            Command::Cash { .. } => "Cash",
            Command::Fill { .. } => "Fill",
            Command::Draw { .. } => "Draw",
            Command::Bet { .. } => "Bet",
            Command::Deal { .. } => "Deal",
            Command::Raise { .. } => "Raise",
            Command::Leave { .. } => "Leave",
            Command::Settle => "Settle",
            Command::Void => "Void",
        }
    }
}
