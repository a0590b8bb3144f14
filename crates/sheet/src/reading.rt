// Reading: the command at a place of a sheet.
ghost use Rattle.std.specs.Prelude.{◌≡◌, IfOk};
ghost use Rattle.sheet.specs.Reading.{Taken, refusing, read_at, calls, behind, SameBytes};

use crate::opcode::Opcode;
use crate::operands;
use crate::place::{Guard, Place, bytes_from};
use commands::Command;
use refusals::{Cause, Refusal};

// A sheet has at most so many bytes.
pub const LONGEST: usize = 65_536;

// The command that a first byte and the bytes behind it mean, and the bytes behind the command.
fn command(first: u8, bytes: &[u8]) -> Result<(Command<'_>, &[u8]), Cause>
    ensures { Taken first bytes.now result }
{
    match Opcode::try_from(first)? {
        Opcode::Open => {
            let (conditions, rest) = operands::conditions(bytes)?;
            let (tray, rest) = operands::eight_bytes(rest)?;
            Ok((Command::Open { conditions, tray }, rest))
        }
        Opcode::Buy => {
            let (seat, rest) = operands::byte(bytes)?;
            let (amount, rest) = operands::eight_bytes(rest)?;
            Ok((Command::Buy { seat, amount }, rest))
        }
        Opcode::Cash => {
            let (seat, rest) = operands::byte(bytes)?;
            let (amount, rest) = operands::eight_bytes(rest)?;
            Ok((Command::Cash { seat, amount }, rest))
        }
        Opcode::Fill => {
            let (amount, rest) = operands::eight_bytes(bytes)?;
            Ok((Command::Fill { amount }, rest))
        }
        Opcode::Draw => {
            let (amount, rest) = operands::eight_bytes(bytes)?;
            Ok((Command::Draw { amount }, rest))
        }
        Opcode::Bet => {
            let (seat, rest) = operands::byte(bytes)?;
            let (space, rest) = operands::byte(rest)?;
            let (amount, rest) = operands::four_bytes(rest)?;
            Ok((
                Command::Bet {
                    seat,
                    space,
                    amount,
                },
                rest,
            ))
        }
        Opcode::Deal => {
            let (cards, rest) = operands::cards(bytes)?;
            Ok((Command::Deal { cards }, rest))
        }
        Opcode::Raise => {
            let (seat, rest) = operands::byte(bytes)?;
            Ok((Command::Raise { seat }, rest))
        }
        Opcode::Leave => {
            let (seat, rest) = operands::byte(bytes)?;
            Ok((Command::Leave { seat }, rest))
        }
        Opcode::Settle => Ok((Command::Settle, bytes)),
        Opcode::Void => Ok((Command::Void, bytes)),
    }
}

// Takes a command's first byte and then its operands, moving the place along; a refusal leaves it inside the command.
fn advance<'a>(sheet: &'a [u8], place: &mut Place) -> Result<Option<Command<'a>>, Cause>
    ensures answer { calls (refusing result) ≡ read_at sheet.now place.old.at }
    ensures place { IfOk result (λ c. place.new.at ≡ behind (calls (refusing result)) place.old.at) }
    ensures bytes { SameBytes sheet.now place.old.at (calls (refusing result)) }
{
    if sheet.len() > LONGEST {
        return Err(Cause::SheetTooLong);
    }
    let [first, bytes @ ..] = bytes_from(sheet, place.at) else {
        return Ok(None);
    };
    place.at += 1;
    let (command, rest) = command(*first, bytes)?;
    place.at += bytes.len() - rest.len();
    Ok(Some(command))
}

// The command at a place, with the place moved behind it; none at the end of the sheet, or past it.
pub(crate) fn read<'a>(sheet: &'a [u8], place: &mut Place) -> Result<Option<Command<'a>>, Refusal>
    ensures answer { calls result ≡ read_at sheet.now place.old.at }
    ensures place { place.new.at ≡ behind (calls result) place.old.at }
    ensures bytes { SameBytes sheet.now place.old.at (calls result) }
{
    let mut guard = Guard {
        back_to: Some(place.at),
        place,
    };
    let command = advance(sheet, guard.place).map_err(|cause| Refusal::new(cause, 0))?;
    guard.back_to = None;
    Ok(command)
}
