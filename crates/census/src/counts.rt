// Counting hands by their classes.
ghost use Rattle.std.specs.Prelude.{◌≡◌, ℕ, ◌≤◌, ◌<◌, [], ◌∷◌, IfOk, OnOk, drop, length};
ghost use Rattle.census.specs.Counts.{Counts, card_at as card_of_place, hands_with, all_hands, count_of, how_many, tallied};

use crate::tally::{NotCounted, Tally};
use grading::{Hand, class};
use std::alloc::Global;
use std::collections::BTreeMap;
use std::{fmt, io};

/// Why hands were not all counted, or their counts not all written.
#[derive(Drop)]
pub enum Failure {
    Memory,
    TooMany,
    Writing(io::Error),
}

impl From<io::Error> for Failure {
    fn from(error: io::Error) -> Failure {
        Failure::Writing(error)
    }
}

impl From<NotCounted> for Failure {
    fn from(why: NotCounted) -> Failure {
        match why {
            NotCounted::Memory => Failure::Memory,
            NotCounted::TooMany => Failure::TooMany,
        }
    }
}

impl fmt::Display for Failure {
    fn fmt<W: fmt::Write>(&self, f: &mut fmt::Formatter<W>) -> fmt::Result {
        match self {
            Failure::Memory => write!(f, "out of memory"),
            Failure::TooMany => write!(f, "a class has too many hands to count"),
            Failure::Writing(error) => write!(f, "writing failed: {error}"),
        }
    }
}

// Counts one hand to its class; cards that are no hand are counted to none.
fn note<H: Hand>(tally: &mut Tally<H::Class>, cards: &[u8]) -> Result<(), NotCounted>
    ensures { OnOk result (Counts H.Class.cmp H.classed (tallied H.Class.lower tally.old) (tallied H.Class.lower tally.new) (cards.now ∷ [])) }
{
    match class::<H>(cards) {
        Ok(class) => tally.add(class),
        Err(_) => Ok(()),
    }
}

// The card at a place of the pack, which is in order of ranks.
fn card_at(place: u8) -> u8
    requires { place < 52 }
    ensures { result ≡ card_of_place place }
{
    16 * (place / 4 + 2) + place % 4
}

// Counts the hands that have the cards behind the first of `hand`, and one more from a place of the pack below `bound`.
fn count_last<H: Hand>(
    tally: &mut Tally<H::Class>,
    hand: &mut [u8],
    bound: u8,
) -> Result<(), NotCounted>
    requires room { 0 < length hand.old }
    requires pack { bound ≤ 52 }
    ensures counts { OnOk result (Counts H.Class.cmp H.classed (tallied H.Class.lower tally.old) (tallied H.Class.lower tally.new) (hands_with 1 bound (drop 1 hand.old))) }
    ensures kept { drop 1 hand.new ≡ drop 1 hand.old }
{
    for place in 0..bound {
        hand[0] = card_at(place);
        note::<H>(tally, hand)?;
    }
    Ok(())
}

// Counts the hands that have the cards behind the first `more` places of `hand`, and so many more from places of the pack below `bound`.
fn count_with<H: Hand>(
    tally: &mut Tally<H::Class>,
    hand: &mut [u8],
    more: usize,
    bound: u8,
) -> Result<(), NotCounted>
    requires room { more ≤ length hand.old }
    requires pack { bound ≤ 52 }
    ensures counts { OnOk result (Counts H.Class.cmp H.classed (tallied H.Class.lower tally.old) (tallied H.Class.lower tally.new) (hands_with more bound (drop more hand.old))) }
    ensures kept { drop more hand.new ≡ drop more hand.old }
{
    if more == 0 {
        return note::<H>(tally, hand);
    }
    if more == 1 {
        return count_last::<H>(tally, hand, bound);
    }
    for place in 0..bound {
        hand[more - 1] = card_at(place);
        count_with::<H>(tally, hand, more - 1, place)?;
    }
    Ok(())
}

/// Counts all hands of a pack by their classes, each once.
pub fn count_all<H: Hand>(
    alloc: Global,
    hand: &mut [u8],
) -> Result<BTreeMap<H::Class, u32>, Failure>
    ensures { IfOk result (λ census. (k : H.Class) → count_of H.Class.cmp census k ≡ how_many H.Class.cmp H.classed k (all_hands (length hand.old))) }
{
    let mut tally = Tally::new(alloc);
    let size = hand.len();
    count_with::<H>(&mut tally, hand, size, 52)?;
    Ok(tally.census(alloc)?)
}
