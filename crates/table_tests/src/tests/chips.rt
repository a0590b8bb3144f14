// Buy, Cash, Fill and Draw, on a betting table and then on the same table dealt.
use super::{
    LIMIT, MAKCCARAT, NINE_TO_EIGHT, bet, buy, cash, check_done, check_refused, deal, draw, fill,
    perform, perform_all,
};
use commands::Command;
use open_table::open_table::OpenTable;
use refusals::{Cause, Refusal};
use std::process::Abort;
use std::test::Fail;

// A betting table with this tray, on which seat 1 has these chips in its rack and a tie stake of 10, whose ceiling is 140.
fn staked(tray: u64, rack: u64) -> Result<OpenTable, Refusal> {
    let mut table = OpenTable::open(MAKCCARAT, tray)?;
    perform_all(&mut table, &[buy(1, 10), bet(1, 3, 10)])?;
    if rack > 0 {
        perform_all(&mut table, &[buy(1, rack)])?;
    }
    Ok(table)
}

// Of 1,000 chips that are missing to the limit, at most 1,000 are bought.
fn check_buys(rt: &impl Abort) -> Result<(), Fail> {
    let mut table = staked(LIMIT - 1_010, 0)?;
    let table = &mut table;
    for is_dealt in [false, true] {
        if is_dealt {
            perform_all(table, &[cash(7, 1_000), deal(&NINE_TO_EIGHT)])?;
        }
        check_refused(rt, table, buy(0, 1), Cause::NoSuchSeat, 0);
        check_refused(rt, table, buy(8, 1), Cause::NoSuchSeat, 0);
        check_refused(rt, table, buy(8, 0), Cause::NoSuchSeat, 0);
        check_refused(rt, table, buy(8, 1_001), Cause::NoSuchSeat, 0);
        check_refused(rt, table, buy(7, 0), Cause::BadAmount, 7);
        check_refused(rt, table, buy(7, 1_001), Cause::TotalTooLarge, 7);
        check_done(rt, table, buy(7, 1_000), [LIMIT - 1_010, 1_000, 10]);
        check_refused(rt, table, buy(1, 1), Cause::TotalTooLarge, 1);
        check_refused(rt, table, buy(1, 0), Cause::BadAmount, 1);
    }
    Ok(())
}

#[test]
fn a_seat_buys_up_to_the_limit_of_the_total(rt: HostRuntime) -> Result<(), Fail> {
    check_buys(&rt)
}

// Of 500 chips in the rack, at most 500 are cashed, and the stake stays.
fn check_cashes(rt: &impl Abort) -> Result<(), Fail> {
    let mut table = staked(1_000, 500)?;
    let table = &mut table;
    for is_dealt in [false, true] {
        if is_dealt {
            perform_all(table, &[buy(1, 500), deal(&NINE_TO_EIGHT)])?;
        }
        check_refused(rt, table, cash(0, 1), Cause::NoSuchSeat, 0);
        check_refused(rt, table, cash(8, 1), Cause::NoSuchSeat, 0);
        check_refused(rt, table, cash(8, 0), Cause::NoSuchSeat, 0);
        check_refused(rt, table, cash(1, 0), Cause::BadAmount, 1);
        check_refused(rt, table, cash(2, 0), Cause::BadAmount, 2);
        check_refused(rt, table, cash(2, 1), Cause::RackTooSmall, 2);
        check_refused(rt, table, cash(1, 501), Cause::RackTooSmall, 1);
        check_done(rt, table, cash(1, 500), [1_000, 0, 10]);
        check_refused(rt, table, cash(1, 1), Cause::RackTooSmall, 1);
    }
    Ok(())
}

#[test]
fn a_seat_cashes_what_lies_in_its_rack(rt: HostRuntime) -> Result<(), Fail> {
    check_cashes(&rt)
}

// Of 1,000 chips that are missing to the limit, at most 1,000 are filled.
fn check_fills(rt: &impl Abort) -> Result<(), Fail> {
    let mut table = staked(LIMIT - 1_060, 50)?;
    let table = &mut table;
    for is_dealt in [false, true] {
        if is_dealt {
            perform_all(table, &[draw(1_000), deal(&NINE_TO_EIGHT)])?;
        }
        check_refused(rt, table, fill(0), Cause::BadAmount, 0);
        check_refused(rt, table, fill(1_001), Cause::TotalTooLarge, 0);
        check_done(rt, table, fill(1_000), [LIMIT - 60, 50, 10]);
        check_refused(rt, table, fill(1), Cause::TotalTooLarge, 0);
        check_refused(rt, table, fill(0), Cause::BadAmount, 0);
    }
    Ok(())
}

#[test]
fn a_tray_is_filled_up_to_the_limit_of_the_total(rt: HostRuntime) -> Result<(), Fail> {
    check_fills(&rt)
}

// A tray of 1,000 is drawn down to the ceiling.
fn check_draws(rt: &impl Abort) -> Result<(), Fail> {
    let mut table = staked(1_000, 50)?;
    let table = &mut table;
    for is_dealt in [false, true] {
        if is_dealt {
            perform_all(table, &[fill(860), deal(&NINE_TO_EIGHT)])?;
        }
        check_refused(rt, table, draw(0), Cause::BadAmount, 0);
        check_refused(rt, table, draw(861), Cause::TrayTooSmall, 0);
        check_done(rt, table, draw(860), [140, 50, 10]);
        check_refused(rt, table, draw(1), Cause::TrayTooSmall, 0);
        check_refused(rt, table, draw(0), Cause::BadAmount, 0);
    }
    perform(table, Command::Void)?;
    check_refused(rt, table, draw(141), Cause::TrayTooSmall, 0);
    check_done(rt, table, draw(140), [0, 60, 0]);
    check_refused(rt, table, draw(1), Cause::TrayTooSmall, 0);
    Ok(())
}

#[test]
fn a_tray_is_drawn_down_to_the_ceilings(rt: HostRuntime) -> Result<(), Fail> {
    check_draws(&rt)
}
