// Raise and Leave, both only on a dealt table.
use super::{
    FORTUNE, MAKCCARAT, NINE_TO_EIGHT, STUD, bet, buy, check_done, check_refused, deal, leave,
    perform_all, raise,
};
use open_table::open_table::OpenTable;
use refusals::{Cause, Refusal};
use std::process::Abort;
use std::test::Fail;

// Seats 1 to 3 of Fortune: an ante and one chip too few for its raise, an ante beside Pair Plus and as many as its raise, and Pair Plus alone.
fn staked() -> Result<OpenTable, Refusal> {
    let mut table = OpenTable::open(FORTUNE, 50_000)?;
    let stakes = [
        buy(1, 199),
        buy(2, 220),
        buy(3, 50),
        bet(1, 1, 100),
        bet(2, 1, 100),
        bet(2, 3, 20),
        bet(3, 3, 50),
    ];
    perform_all(&mut table, &stakes)?;
    Ok(table)
}

const TWELVE: [u8; 12] = [
    0x72, 0x60, 0x52, 0x81, 0x31, 0xC0, 0xE3, 0xD0, 0xB2, 0x90, 0x91, 0x53,
];

fn check_raises(rt: &impl Abort) -> Result<(), Fail> {
    let mut table = staked()?;
    let table = &mut table;
    check_refused(rt, table, raise(1), Cause::WrongStage, 1);
    check_refused(rt, table, raise(8), Cause::WrongStage, 8);
    perform_all(table, &[deal(&TWELVE)])?;
    check_refused(rt, table, raise(0), Cause::NoSuchSeat, 0);
    check_refused(rt, table, raise(8), Cause::NoSuchSeat, 0);
    check_refused(rt, table, raise(3), Cause::NoChoiceOpen, 3);
    check_refused(rt, table, raise(4), Cause::NoChoiceOpen, 4);
    check_refused(rt, table, raise(1), Cause::RackTooSmall, 1);
    check_done(rt, table, buy(1, 1), [50_000, 200, 270]);
    check_done(rt, table, raise(1), [50_000, 100, 370]);
    check_refused(rt, table, raise(1), Cause::NoChoiceOpen, 1);
    check_done(rt, table, raise(2), [50_000, 0, 470]);
    check_refused(rt, table, raise(2), Cause::NoChoiceOpen, 2);
    Ok(())
}

#[test]
fn a_seat_raises_once_and_from_its_rack(rt: HostRuntime) -> Result<(), Fail> {
    check_raises(&rt)
}

fn check_leaving(rt: &impl Abort) -> Result<(), Fail> {
    let mut table = staked()?;
    let table = &mut table;
    check_refused(rt, table, leave(2), Cause::WrongStage, 2);
    check_refused(rt, table, leave(0), Cause::WrongStage, 0);
    perform_all(table, &[deal(&TWELVE)])?;
    check_refused(rt, table, leave(0), Cause::NoSuchSeat, 0);
    check_refused(rt, table, leave(8), Cause::NoSuchSeat, 0);
    check_refused(rt, table, leave(2), Cause::LeavingBarred, 2);
    check_done(rt, table, raise(2), [50_000, 99, 370]);
    check_refused(rt, table, leave(2), Cause::NoChoiceOpen, 2);
    check_refused(rt, table, leave(3), Cause::NoChoiceOpen, 3);
    check_refused(rt, table, leave(4), Cause::NoChoiceOpen, 4);
    check_done(rt, table, leave(1), [50_000, 99, 370]);
    check_refused(rt, table, leave(1), Cause::NoChoiceOpen, 1);
    check_refused(rt, table, raise(1), Cause::NoChoiceOpen, 1);
    Ok(())
}

#[test]
fn a_seat_leaves_once_and_not_beside_pair_plus(rt: HostRuntime) -> Result<(), Fail> {
    check_leaving(&rt)
}

fn check_stud(rt: &impl Abort) -> Result<(), Fail> {
    let mut table = OpenTable::open(STUD, 50_000)?;
    let table = &mut table;
    perform_all(table, &[buy(6, 299), bet(6, 1, 100)])?;
    let cards = [0x20, 0x22, 0x91, 0x60, 0x43, 0xE3, 0xD3, 0x71, 0x52, 0x30];
    perform_all(table, &[deal(&cards)])?;
    check_refused(rt, table, raise(6), Cause::RackTooSmall, 6);
    perform_all(table, &[buy(6, 1)])?;
    check_done(rt, table, raise(6), [50_000, 0, 300]);
    Ok(())
}

#[test]
fn a_raise_in_stud_is_twice_the_ante(rt: HostRuntime) -> Result<(), Fail> {
    check_stud(&rt)
}

fn check_makccarat(rt: &impl Abort) -> Result<(), Fail> {
    let mut table = OpenTable::open(MAKCCARAT, 50_000)?;
    let table = &mut table;
    perform_all(table, &[buy(1, 100), bet(1, 1, 50), deal(&NINE_TO_EIGHT)])?;
    for seat in 1..8 {
        check_refused(rt, table, raise(seat), Cause::NoChoiceOpen, seat);
        check_refused(rt, table, leave(seat), Cause::NoChoiceOpen, seat);
    }
    Ok(())
}

#[test]
fn makccarat_knows_no_choice(rt: HostRuntime) -> Result<(), Fail> {
    check_makccarat(&rt)
}
