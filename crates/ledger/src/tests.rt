// Rolls, sums and printed lines on examples.
ghost use Rattle.std.specs.Prelude.{◌≡◌, ℕ, ◌<◌, length, slice_set};

use crate::closings::Closing;
use crate::entries::{Entry, sum_by_net};
use crate::notes::Note;
use crate::rolls::Roll;
use refusals::{Cause, Refusal};
use std::test::Fail;

const BLANK: Entry = Entry {
    round: 0,
    seat: 0,
    staked: 0,
    returned: 0,
    net: 0,
};

// The lender gets its slice back with the record at its first place, and the other places as they were.
fn lend(slots: &mut [Entry], record: Entry)
    requires { 0 < length slots.old }
    ensures { slots.new ≡ slice_set slots.old 0 «record» }
{
    let mut roll = Roll::new(slots);
    let _ = roll.keep(record);
}

#[test]
fn a_full_roll_refuses(rt: HostRuntime) -> Result<(), Fail> {
    let first = Entry::new(1, 4, 100, 0)?;
    let second = Entry::new(1, 6, 50, 75)?;
    let mut slots = [BLANK; 2];
    let mut roll = Roll::new(&mut slots);
    roll.keep(first)?;
    roll.keep(second)?;
    let full = Refusal::new(Cause::NoPlaceFree, 0);
    assert_eq!(rt; roll.keep(BLANK), Err(full));
    assert_eq!(rt; roll.free(), 0);
    assert_eq!(rt; roll.count_of(4), 1);
    assert_eq!(rt; roll.count_of(5), 0);
    assert_eq!(rt; roll.records(), [first, second].as_slice());
    assert_eq!(rt; sum_by_net(roll.records()), Ok(-75));
    roll.clear();
    assert_eq!(rt; roll.free(), 2);
    assert_eq!(rt; roll.count_of(4), 0);
    Ok(())
}

#[test]
fn a_roll_without_places_refuses(rt: HostRuntime) {
    let mut slots: [Note; 0] = [];
    let mut roll = Roll::new(&mut slots);
    let refusal = Refusal::new(Cause::SpaceTaken, 1);
    assert!(rt; roll.keep(Note { place: 53, refusal }).is_err());
    assert_eq!(rt; roll.count_of(1), 0);
}

#[test]
fn amounts_at_the_limit_are_summed(rt: HostRuntime) -> Result<(), Fail> {
    let most = 1_000_000_000_000;
    let lost = Entry::new(1, 1, most, 0)?;
    let won = Entry::new(1, 2, 0, most)?;
    assert_eq!(rt; sum_by_net(&[lost, lost, won]), Ok(-1_000_000_000_000));
    let refused = Refusal::new(Cause::TotalTooLarge, 0);
    let over = Entry {
        net: won.net + 1,
        ..won
    };
    assert_eq!(rt; sum_by_net(&[lost, over]), Err(refused));
    let under = Entry {
        net: lost.net - 1,
        ..lost
    };
    assert_eq!(rt; sum_by_net(&[under, won]), Err(refused));
    assert_eq!(rt;
        Entry::new(1, 3, most + 1, 0),
        Err(Refusal::new(Cause::TotalTooLarge, 3))
    );
    Ok(())
}

#[test]
fn lines_are_printed(rt: HostRuntime) -> Result<(), Fail> {
    let lost = Entry::new(1, 1, 100, 0)?.to_string(rt.alloc())?;
    assert_eq!(rt; lost.as_str(), "E 1 1 100 0 -100");
    let refusal = Refusal::new(Cause::SpaceTaken, 1);
    let note = Note { place: 53, refusal }.to_string(rt.alloc())?;
    assert_eq!(rt; note.as_str(), "X 53 5 1 table");
    let end = Closing {
        tray: 99900,
        racks: 1100,
        spaces: 0,
    }
    .to_string(rt.alloc())?;
    assert_eq!(rt; end.as_str(), "Z 99900 1100 0");
    Ok(())
}
