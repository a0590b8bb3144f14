// Writing: the bytes of a command at a place of a buffer. The place behind is an answer, so buffer and place are no struct: none would outlive a call.
ghost use Rattle.std.specs.Prelude.{◌≡◌, ℕ, ◌+◌, ◌^◌, ◌<◌, length, sum_by, if◌then◌else◌, Ok, Err, nat_le, nat_lt};
ghost use Rattle.refusals.specs.Refusals.{refused, Answers};
ghost use Rattle.refusals.specs.declared.Cause.TheVariants.{CutShort};
ghost use Rattle.commands.specs.Calls.{Deal, call_of};
ghost use Rattle.sheet.specs.Format.{bytes_of, FitsFormat};
ghost use Rattle.sheet.specs.Reading.{cause_of};
ghost use Rattle.sheet.specs.Writing.{buffer_after, joined, write_at, write_faults, ReadsBack, ReadsAlone};

use crate::opcode::Opcode;
use commands::Command;
use refusals::{Cause, Refusal};

// Whether a buffer has so many bytes from a place on.
fn has_room(out: &[u8], at: usize, width: usize) -> bool
    ensures { result ≡ nat_le (at + width) (length out.now) }
{
    at.checked_add(width).is_some_and(|end| end <= out.len())
}

// How many bytes parts have in all.
fn width(parts: &[&[u8]]) -> usize
    requires { sum_by (λ part. length part.now) parts.now < 2 ^ 16 }
    ensures { result ≡ sum_by (λ part. length part.now) parts.now }
{
    parts.iter().map(|part| part.len()).sum()
}

// Puts parts, one behind another, at a place of a buffer, if they fit, and answers the place behind them.
fn put(out: &mut [u8], at: usize, parts: &[&[u8]]) -> Result<usize, Refusal>
    requires { sum_by (λ part. length part.now) parts.now < 2 ^ 16 }
    ensures answer { result ≡ (if nat_lt (length out.old) (at + length (joined parts.now)) then Err (refused CutShort 0) else Ok (at + length (joined parts.now))) }
    ensures buffer { out.new ≡ buffer_after result out.old at (joined parts.now) }
{
    if !has_room(out, at, width(parts)) {
        return Err(Refusal::new(Cause::CutShort, 0));
    }
    let mut end = at;
    for part in parts {
        let begin = end;
        end += part.len();
        out[begin..end].copy_from_slice(part);
    }
    Ok(end)
}

// Puts a Deal: forty card bytes, 0 behind its cards; more cards than that cannot be written.
fn put_deal(out: &mut [u8], at: usize, cards: &[u8]) -> Result<usize, Refusal>
    ensures answer { result ≡ write_at out.old at (Deal cards.now) }
    ensures buffer { out.new ≡ buffer_after result out.old at (bytes_of (Deal cards.now)) }
{
    let count = cards.len();
    if !has_room(out, at, 42) {
        return Err(Refusal::new(Cause::CutShort, 0));
    }
    if count > 40 {
        return Err(Refusal::new(Cause::BadDeal, 0));
    }
    put(
        out,
        at,
        &[&[Opcode::Deal as u8, count as u8], cards, &[0; 40][count..]],
    )
}

// Puts the bytes of a command, whose numbers always fit them. The odds of an Open stand one by one, since a part borrows its bytes.
fn put_command(command: &Command<'_>, out: &mut [u8], at: usize) -> Result<usize, Refusal>
    ensures answer { result ≡ write_at out.old at (call_of command.now) }
    ensures buffer { out.new ≡ buffer_after result out.old at (bytes_of (call_of command.now)) }
    ensures fits { FitsFormat (call_of command.now) }
{
    match command {
        Command::Open { conditions, tray } => put(
            out,
            at,
            &[
                &[Opcode::Open as u8, conditions.game],
                &conditions.minimum.to_be_bytes(),
                &conditions.maximum.to_be_bytes(),
                &conditions.cap.to_be_bytes(),
                &conditions.odds[0].to_be_bytes(),
                &conditions.odds[1].to_be_bytes(),
                &conditions.odds[2].to_be_bytes(),
                &conditions.odds[3].to_be_bytes(),
                &conditions.odds[4].to_be_bytes(),
                &tray.to_be_bytes(),
            ],
        ),
        Command::Buy { seat, amount } => put(
            out,
            at,
            &[&[Opcode::Buy as u8, *seat], &amount.to_be_bytes()],
        ),
        Command::Cash { seat, amount } => put(
            out,
            at,
            &[&[Opcode::Cash as u8, *seat], &amount.to_be_bytes()],
        ),
        Command::Fill { amount } => put(out, at, &[&[Opcode::Fill as u8], &amount.to_be_bytes()]),
        Command::Draw { amount } => put(out, at, &[&[Opcode::Draw as u8], &amount.to_be_bytes()]),
        Command::Bet {
            seat,
            space,
            amount,
        } => put(
            out,
            at,
            &[&[Opcode::Bet as u8, *seat, *space], &amount.to_be_bytes()],
        ),
        Command::Deal { cards } => put_deal(out, at, cards),
        Command::Raise { seat } => put(out, at, &[&[Opcode::Raise as u8, *seat]]),
        Command::Leave { seat } => put(out, at, &[&[Opcode::Leave as u8, *seat]]),
        Command::Settle => put(out, at, &[&[Opcode::Settle as u8]]),
        Command::Void => put(out, at, &[&[Opcode::Void as u8]]),
    }
}

// Writes a command at a place of a buffer and answers the place behind it; a refusal leaves the buffer as it was.
pub fn write(command: &Command<'_>, out: &mut [u8], at: usize) -> Result<usize, Refusal>
    ensures answer { result ≡ write_at out.old at (call_of command.now) }
    ensures buffer { out.new ≡ buffer_after result out.old at (bytes_of (call_of command.now)) }
    ensures back { ReadsBack result out.new at (call_of command.now) }
    ensures alone { ReadsAlone result out.new at (call_of command.now) }
    ensures least { Answers (write_faults out.old at (call_of command.now)) (cause_of result) }
{
    put_command(command, out, at)
}
