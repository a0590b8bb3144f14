// The operands behind a command's first byte: each function takes its own from the front and leaves the rest.
// A slice pattern names each byte that it takes, so each width of a number has a function of its own.
ghost use Rattle.std.specs.Prelude.{◌≡◌, ℕ, ◌+◌, ◌<◌, length, take, MatchResult};
ghost use Rattle.refusals.specs.declared.Cause.TheVariants.{CutShort};
ghost use Rattle.sheet.specs.Reading.{Took, number, conditions_in, odds_in, all_zero, Drawn};

use commands::Conditions;
use refusals::Cause;

// A byte.
pub(crate) fn byte(bytes: &[u8]) -> Result<(u8, &[u8]), Cause>
    ensures { Took (number 1) 1 bytes.now result }
{
    match bytes {
        [byte, rest @ ..] => Ok((*byte, rest)),
        _ => Err(Cause::CutShort),
    }
}

// A number of two bytes.
fn two_bytes(bytes: &[u8]) -> Result<(u16, &[u8]), Cause>
    ensures { Took (number 2) 2 bytes.now result }
{
    match bytes {
        [a, b, rest @ ..] => Ok((u16::from_be_bytes([*a, *b]), rest)),
        _ => Err(Cause::CutShort),
    }
}

// A number of four bytes.
pub(crate) fn four_bytes(bytes: &[u8]) -> Result<(u32, &[u8]), Cause>
    ensures { Took (number 4) 4 bytes.now result }
{
    match bytes {
        [a, b, c, d, rest @ ..] => Ok((u32::from_be_bytes([*a, *b, *c, *d]), rest)),
        _ => Err(Cause::CutShort),
    }
}

// A number of eight bytes.
pub(crate) fn eight_bytes(bytes: &[u8]) -> Result<(u64, &[u8]), Cause>
    ensures { Took (number 8) 8 bytes.now result }
{
    match bytes {
        [a, b, c, d, e, f, g, h, rest @ ..] => Ok((
            u64::from_be_bytes([*a, *b, *c, *d, *e, *f, *g, *h]),
            rest,
        )),
        _ => Err(Cause::CutShort),
    }
}

// The five odds of an Open, one after another by `?`: a closure that makes an array could not stop where one is cut short.
fn odds(bytes: &[u8]) -> Result<([u16; 5], &[u8]), Cause>
    ensures { Took odds_in 10 bytes.now result }
{
    let (first, rest) = two_bytes(bytes)?;
    let (second, rest) = two_bytes(rest)?;
    let (third, rest) = two_bytes(rest)?;
    let (fourth, rest) = two_bytes(rest)?;
    let (fifth, rest) = two_bytes(rest)?;
    Ok(([first, second, third, fourth, fifth], rest))
}

// The conditions of an Open.
pub(crate) fn conditions(bytes: &[u8]) -> Result<(Conditions, &[u8]), Cause>
    ensures { Took conditions_in 27 bytes.now result }
{
    let (game, rest) = byte(bytes)?;
    let (minimum, rest) = four_bytes(rest)?;
    let (maximum, rest) = four_bytes(rest)?;
    let (cap, rest) = eight_bytes(rest)?;
    let (odds, rest) = odds(rest)?;
    let conditions = Conditions {
        game,
        minimum,
        maximum,
        cap,
        odds,
    };
    Ok((conditions, rest))
}

// Whether bytes are all 0.
fn is_zero(bytes: &[u8]) -> bool
    ensures { result ≡ all_zero bytes.now }
{
    bytes.iter().all(|b| *b == 0)
}

// The forty card bytes of a Deal.
fn row(bytes: &[u8]) -> Result<(&[u8], &[u8]), Cause>
    ensures { MatchResult result (λ p. (p.0.now ≡ take 40 bytes.now) × (length p.0.now ≡ 40) × (length p.1.now + 40 ≡ length bytes.now)) (λ e. (length bytes.now < 40) × (e ≡ CutShort)) }
{
    bytes.split_at_checked(40).ok_or(Cause::CutShort)
}

// The counted cards of a Deal. The other of its forty bytes are 0.
pub(crate) fn cards(bytes: &[u8]) -> Result<(&[u8], &[u8]), Cause>
    ensures { Drawn bytes.now result }
{
    let (count, rest) = byte(bytes)?;
    let (row, rest) = row(rest)?;
    let count = count as usize;
    if count > 40 {
        return Err(Cause::BadDeal);
    }
    let (cards, filler) = row.split_at(count);
    if !is_zero(filler) {
        return Err(Cause::BadDeal);
    }
    Ok((cards, rest))
}
