// Bet and Deal, both only on a betting table.
use super::{
    FORTUNE, MAKCCARAT, NINE_TO_EIGHT, SECOND_WAY, STUD, bet, buy, check_done, check_refused, deal,
    perform, perform_all,
};
use commands::{Command, Conditions};
use open_table::open_table::OpenTable;
use refusals::{Cause, Refusal};
use std::process::Abort;
use std::test::Fail;

// The tray covers a player stake of 10 and one of 1,000, and a pair of 11 at 11 to 1.
fn check_stakes(rt: &impl Abort) -> Result<(), Fail> {
    let mut table = OpenTable::open(MAKCCARAT, 1_131)?;
    let table = &mut table;
    perform_all(table, &[buy(1, 2_000), buy(2, 10)])?;
    check_refused(rt, table, bet(0, 1, 10), Cause::NoSuchSeat, 0);
    check_refused(rt, table, bet(8, 6, 0), Cause::NoSuchSeat, 0);
    check_refused(rt, table, bet(1, 0, 10), Cause::NoBets, 1);
    check_refused(rt, table, bet(1, 6, 9), Cause::NoBets, 1);
    check_refused(rt, table, bet(1, 1, 0), Cause::BadAmount, 1);
    check_refused(rt, table, bet(1, 1, 9), Cause::BadAmount, 1);
    check_refused(rt, table, bet(1, 1, 1_001), Cause::BadAmount, 1);
    check_refused(rt, table, bet(1, 4, 9), Cause::BadAmount, 1);
    check_refused(rt, table, bet(3, 4, 10), Cause::NoCompanion, 3);
    check_refused(rt, table, bet(3, 1, 10), Cause::RackTooSmall, 3);
    check_refused(rt, table, bet(2, 1, 11), Cause::RackTooSmall, 2);
    check_done(rt, table, bet(2, 1, 10), [1_131, 2_000, 10]);
    check_refused(rt, table, bet(2, 1, 10), Cause::SpaceTaken, 2);
    check_refused(rt, table, bet(2, 1, 9), Cause::BadAmount, 2);
    check_done(rt, table, bet(1, 1, 1_000), [1_131, 1_000, 1_010]);
    check_refused(rt, table, bet(1, 4, 12), Cause::TrayTooSmall, 1);
    check_done(rt, table, bet(1, 4, 11), [1_131, 989, 1_021]);
    check_refused(rt, table, bet(1, 4, 12), Cause::SpaceTaken, 1);
    check_refused(rt, table, bet(1, 2, 10), Cause::TrayTooSmall, 1);
    check_refused(rt, table, bet(2, 2, 10), Cause::RackTooSmall, 2);
    perform_all(table, &[deal(&NINE_TO_EIGHT)])?;
    check_refused(rt, table, bet(1, 2, 10), Cause::WrongStage, 1);
    check_refused(rt, table, bet(8, 6, 0), Cause::WrongStage, 8);
    Ok(())
}

#[test]
fn a_stake_is_laid_within_every_bound(rt: HostRuntime) -> Result<(), Fail> {
    check_stakes(&rt)
}

// The spaces 0 to 6 of an empty seat: those that take a stake, those that take none, and those that want a companion.
fn check_spaces(rt: &impl Abort) -> Result<(), Fail> {
    let takes = None;
    let bars = Some(Cause::NoBets);
    let lacks = Some(Cause::NoCompanion);
    let games = [
        (FORTUNE, [bars, takes, bars, takes, bars, bars, bars]),
        (STUD, [bars, takes, bars, bars, bars, bars, bars]),
        (MAKCCARAT, [bars, takes, takes, takes, lacks, lacks, bars]),
        (SECOND_WAY, [bars, takes, takes, takes, lacks, lacks, bars]),
    ];
    for (game, causes) in games {
        for (space, cause) in [0, 1, 2, 3, 4, 5, 6].into_iter().zip(causes) {
            let mut table = OpenTable::open(game, 50_000)?;
            perform(&mut table, buy(4, 100))?;
            match cause {
                None => check_done(rt, &mut table, bet(4, space, 100), [50_000, 0, 100]),
                Some(cause) => check_refused(rt, &mut table, bet(4, space, 100), cause, 4),
            }
        }
    }
    Ok(())
}

#[test]
fn each_game_says_which_spaces_take_a_stake(rt: HostRuntime) -> Result<(), Fail> {
    check_spaces(&rt)
}

// A table at which seat 1 alone may stake, and does on space 1.
fn staked(conditions: Conditions) -> Result<OpenTable, Refusal> {
    let mut table = OpenTable::open(conditions, 50_000)?;
    perform_all(&mut table, &[buy(1, 100), bet(1, 1, 100)])?;
    Ok(table)
}

// Seat 1 has a straight, and the bank a pair of nines.
const SIX: [u8; 6] = [0x72, 0x60, 0x52, 0x90, 0x91, 0x53];

fn check_deals(rt: &impl Abort) -> Result<(), Fail> {
    let mut table = OpenTable::open(FORTUNE, 50_000)?;
    check_refused(rt, &mut table, deal(&SIX), Cause::NoStakes, 0);
    check_refused(rt, &mut table, deal(&[0xFF]), Cause::NoStakes, 0);
    let mut table = staked(FORTUNE)?;
    let table = &mut table;
    check_refused(rt, table, deal(&[]), Cause::WrongCount, 0);
    check_refused(rt, table, deal(&SIX[..5]), Cause::WrongCount, 0);
    let seven = [0x72, 0x60, 0x52, 0x90, 0x91, 0x53, 0x20];
    check_refused(rt, table, deal(&seven), Cause::WrongCount, 0);
    check_refused(rt, table, deal(&[0x72, 0x72]), Cause::NoCard, 0);
    check_refused(
        rt,
        table,
        deal(&[0x72, 0x60, 0x52, 0x90, 0x91, 0x54]),
        Cause::NoCard,
        0,
    );
    check_done(rt, table, deal(&SIX), [50_000, 0, 100]);
    check_refused(rt, table, deal(&SIX), Cause::WrongStage, 0);
    check_refused(rt, table, deal(&[0xFF]), Cause::WrongStage, 0);
    Ok(())
}

#[test]
fn cards_are_dealt_once_and_as_called_for(rt: HostRuntime) -> Result<(), Fail> {
    check_deals(&rt)
}

// Of this row Fortune and the first way of Makccarat call for six cards, Stud for ten and the second way for five.
fn check_counts(rt: &impl Abort) -> Result<(), Fail> {
    let row = [
        0x42, 0x20, 0x31, 0x33, 0x22, 0x90, 0x51, 0x61, 0x71, 0x81, 0x91,
    ];
    for (game, called) in [(FORTUNE, 6), (STUD, 10), (MAKCCARAT, 6), (SECOND_WAY, 5)] {
        let mut table = staked(game)?;
        for count in 0..12 {
            if count != called {
                check_refused(rt, &mut table, deal(&row[..count]), Cause::WrongCount, 0);
            }
        }
        assert!(rt; called < 12);
        check_done(rt, &mut table, deal(&row[..called]), [50_000, 0, 100]);
    }
    Ok(())
}

#[test]
fn each_game_says_how_many_cards_are_called_for(rt: HostRuntime) -> Result<(), Fail> {
    check_counts(&rt)
}

// A round that is dealt and voided: the stake comes back.
fn void_a_round(table: &mut OpenTable) -> Result<(), Refusal> {
    perform(table, bet(1, 1, 10))?;
    perform(table, deal(&NINE_TO_EIGHT))?;
    perform(table, Command::Void)
}

fn check_rounds(rt: &impl Abort) -> Result<(), Fail> {
    let mut table = OpenTable::open(MAKCCARAT, 5_000)?;
    let table = &mut table;
    perform_all(table, &[buy(1, 10), bet(1, 1, 10)])?;
    // what is refused is no round
    check_refused(rt, table, deal(&[]), Cause::WrongCount, 0);
    perform_all(table, &[deal(&NINE_TO_EIGHT), Command::Void])?;
    for _ in 0..999_998 {
        void_a_round(table)?;
    }
    perform_all(table, &[bet(1, 1, 10)])?;
    check_done(rt, table, deal(&NINE_TO_EIGHT), [5_000, 0, 10]);
    perform_all(table, &[Command::Void])?;
    check_refused(rt, table, deal(&NINE_TO_EIGHT), Cause::NoStakes, 0);
    perform_all(table, &[bet(1, 1, 10)])?;
    check_refused(rt, table, deal(&NINE_TO_EIGHT), Cause::NoRoundsLeft, 0);
    check_refused(rt, table, deal(&[0xFF]), Cause::NoRoundsLeft, 0);
    check_refused(rt, table, Command::Void, Cause::WrongStage, 0);
    Ok(())
}

#[test]
fn a_million_rounds_are_dealt_and_no_more(rt: HostRuntime) -> Result<(), Fail> {
    check_rounds(&rt)
}
