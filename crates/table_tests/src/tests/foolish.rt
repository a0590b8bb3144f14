// Arguments that no sane caller hands in: each is answered by a refusal, and nothing changes.
use super::{
    FORTUNE, LIMIT, MAKCCARAT, NINE_TO_EIGHT, SECOND_WAY, STUD, bet, buy, cash, check_refused,
    deal, draw, fill, leave, perform_all, raise,
};
use commands::Conditions;
use open_table::open_table::OpenTable;
use refusals::{Cause, Refusal};
use std::process::Abort;
use std::test::Fail;

const GAMES: [Conditions; 4] = [FORTUNE, STUD, MAKCCARAT, SECOND_WAY];

// A table at which seat 1 has laid a stake on space 1, and has as much again in its rack.
fn staked(conditions: Conditions) -> Result<OpenTable, Refusal> {
    let mut table = OpenTable::open(conditions, 50_000)?;
    perform_all(&mut table, &[buy(1, 200), bet(1, 1, 100)])?;
    Ok(table)
}

fn check_seats(rt: &impl Abort) -> Result<(), Fail> {
    let mut betting = staked(MAKCCARAT)?;
    let mut dealt = staked(MAKCCARAT)?;
    perform_all(&mut dealt, &[deal(&NINE_TO_EIGHT)])?;
    for seat in [0, 8, 255] {
        for amount in [0, 1, u64::MAX] {
            check_refused(rt, &mut betting, buy(seat, amount), Cause::NoSuchSeat, 0);
            check_refused(rt, &mut dealt, buy(seat, amount), Cause::NoSuchSeat, 0);
            check_refused(rt, &mut betting, cash(seat, amount), Cause::NoSuchSeat, 0);
            check_refused(rt, &mut dealt, cash(seat, amount), Cause::NoSuchSeat, 0);
        }
        for (space, amount) in [(0, 0), (1, 10), (255, u32::MAX)] {
            check_refused(
                rt,
                &mut betting,
                bet(seat, space, amount),
                Cause::NoSuchSeat,
                0,
            );
            check_refused(
                rt,
                &mut dealt,
                bet(seat, space, amount),
                Cause::WrongStage,
                seat,
            );
        }
        check_refused(rt, &mut betting, raise(seat), Cause::WrongStage, seat);
        check_refused(rt, &mut dealt, raise(seat), Cause::NoSuchSeat, 0);
        check_refused(rt, &mut betting, leave(seat), Cause::WrongStage, seat);
        check_refused(rt, &mut dealt, leave(seat), Cause::NoSuchSeat, 0);
    }
    Ok(())
}

#[test]
fn seats_that_the_table_lacks(rt: HostRuntime) -> Result<(), Fail> {
    check_seats(&rt)
}

fn check_spaces(rt: &impl Abort) -> Result<(), Fail> {
    for game in GAMES {
        let mut table = staked(game)?;
        for space in [0, 6, 255] {
            for amount in [0, 10, u32::MAX] {
                check_refused(rt, &mut table, bet(1, space, amount), Cause::NoBets, 1);
                check_refused(rt, &mut table, bet(7, space, amount), Cause::NoBets, 7);
            }
        }
    }
    Ok(())
}

#[test]
fn spaces_that_no_game_has(rt: HostRuntime) -> Result<(), Fail> {
    check_spaces(&rt)
}

fn check_amounts(rt: &impl Abort) -> Result<(), Fail> {
    for tray in [0, 50_000, LIMIT] {
        let mut table = OpenTable::open(MAKCCARAT, tray)?;
        let table = &mut table;
        check_refused(rt, table, buy(7, 0), Cause::BadAmount, 7);
        check_refused(rt, table, buy(7, u64::MAX), Cause::TotalTooLarge, 7);
        check_refused(rt, table, cash(7, 0), Cause::BadAmount, 7);
        check_refused(rt, table, cash(7, u64::MAX), Cause::RackTooSmall, 7);
        check_refused(rt, table, fill(0), Cause::BadAmount, 0);
        check_refused(rt, table, fill(u64::MAX), Cause::TotalTooLarge, 0);
        check_refused(rt, table, draw(0), Cause::BadAmount, 0);
        check_refused(rt, table, draw(u64::MAX), Cause::TrayTooSmall, 0);
        check_refused(rt, table, bet(7, 1, 0), Cause::BadAmount, 7);
        check_refused(rt, table, bet(7, 1, u32::MAX), Cause::BadAmount, 7);
    }
    Ok(())
}

#[test]
fn no_amount_and_the_widest(rt: HostRuntime) -> Result<(), Fail> {
    check_amounts(&rt)
}

// A card is 16 times a rank of 2 to 14 and a suit of 0 to 3.
fn is_card(byte: u8) -> bool {
    (2..=14).contains(&(byte / 16)) && byte % 16 < 4
}

fn check_bytes(rt: &impl Abort) -> Result<(), Fail> {
    for game in GAMES {
        let mut table = staked(game)?;
        for byte in 0..=255 {
            let is_strange = !is_card(byte);
            let one = if is_strange {
                Cause::NoCard
            } else {
                Cause::WrongCount
            };
            // the poker games take no card twice
            let many = if game.game < 3 { Cause::NoCard } else { one };
            check_refused(rt, &mut table, deal(&[byte]), one, 0);
            check_refused(rt, &mut table, deal(&[byte; 41]), many, 0);
        }
    }
    Ok(())
}

#[test]
fn cards_of_any_bytes(rt: HostRuntime) -> Result<(), Fail> {
    check_bytes(&rt)
}

// None, and 41 that are all different.
fn check_numbers(rt: &impl Abort) -> Result<(), Fail> {
    let mut cards = [0; 41];
    for (k, card) in cards.iter_mut().enumerate() {
        *card = (k % 13) as u8 * 16 + 32 + (k / 13) as u8;
    }
    for game in GAMES {
        let mut table = staked(game)?;
        check_refused(rt, &mut table, deal(&[]), Cause::WrongCount, 0);
        check_refused(rt, &mut table, deal(&cards), Cause::WrongCount, 0);
    }
    Ok(())
}

#[test]
fn cards_of_any_number(rt: HostRuntime) -> Result<(), Fail> {
    check_numbers(&rt)
}
