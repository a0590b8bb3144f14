// Open, which makes a table or is refused, and is always refused on an open one.
use super::{
    FORTUNE, LIMIT, MAKCCARAT, NINE_TO_EIGHT, SECOND_WAY, STUD, bet, buy, check_refused, deal,
    perform_all,
};
use commands::{Command, Conditions};
use ledger::closings::Closing;
use open_table::open_table::OpenTable;
use refusals::{Cause, Refusal};
use std::process::Abort;
use std::test::Fail;

fn check_opens(rt: &impl Abort, conditions: Conditions, tray: u64) -> Result<(), Fail> {
    let table = OpenTable::open(conditions, tray)?;
    let closing = Closing {
        tray,
        racks: 0,
        spaces: 0,
    };
    assert_eq!(rt; table.closing(), closing);
    Ok(())
}

fn check_not_opened(
    rt: &impl Abort,
    conditions: Conditions,
    tray: u64,
    cause: Cause,
) -> Result<(), Fail> {
    match OpenTable::open(conditions, tray) {
        Ok(_) => Err(Fail::new("opened")),
        Err(refusal) => {
            assert_eq!(rt; refusal, Refusal { cause, seat: 0 });
            Ok(())
        },
    }
}

#[test]
fn tables_open_with_the_least_and_the_most(rt: HostRuntime) -> Result<(), Fail> {
    check_opens(&rt, MAKCCARAT, 0)?;
    check_opens(&rt, MAKCCARAT, LIMIT)?;
    for (minimum, maximum) in [(1, 1), (1, 1_000_000), (1_000_000, 1_000_000)] {
        let conditions = Conditions {
            minimum,
            maximum,
            ..MAKCCARAT
        };
        check_opens(&rt, conditions, 5_000)?;
    }
    for odds in [[1; 5], [1_000; 5], [1, 1_000, 1, 1_000, 1]] {
        check_opens(&rt, Conditions { odds, ..FORTUNE }, 5_000)?;
    }
    for cap in [1, 1_000_000_000] {
        check_opens(&rt, Conditions { cap, ..STUD }, 5_000)?;
    }
    for odds in [[1, 1_000, 0, 0, 0], [1_000, 1, 0, 0, 0]] {
        check_opens(&rt, Conditions { odds, ..SECOND_WAY }, 5_000)?;
    }
    Ok(())
}

#[test]
fn a_tray_past_the_limit_opens_no_table(rt: HostRuntime) -> Result<(), Fail> {
    let unknown = Conditions {
        game: 0,
        ..MAKCCARAT
    };
    for tray in [LIMIT + 1, u64::MAX] {
        check_not_opened(&rt, MAKCCARAT, tray, Cause::TotalTooLarge)?;
        check_not_opened(&rt, unknown, tray, Cause::TotalTooLarge)?;
    }
    check_not_opened(&rt, unknown, LIMIT, Cause::BadConditions)
}

#[test]
fn broken_bounds_and_unknown_games_open_no_table(rt: HostRuntime) -> Result<(), Fail> {
    let broken = [
        (0, 0),
        (0, 1_000),
        (11, 10),
        (1, 1_000_001),
        (1_000_001, 1_000_001),
        (u32::MAX, u32::MAX),
    ];
    for (minimum, maximum) in broken {
        let conditions = Conditions {
            minimum,
            maximum,
            ..FORTUNE
        };
        check_not_opened(&rt, conditions, 5_000, Cause::BadConditions)?;
    }
    for game in [0, 5, 255] {
        let conditions = Conditions { game, ..MAKCCARAT };
        check_not_opened(&rt, conditions, 5_000, Cause::BadConditions)?;
    }
    Ok(())
}

#[test]
fn caps_that_a_game_does_not_ask_for_open_no_table(rt: HostRuntime) -> Result<(), Fail> {
    for cap in [0, 1_000_000_001, u64::MAX] {
        check_not_opened(&rt, Conditions { cap, ..STUD }, 5_000, Cause::BadConditions)?;
    }
    for game in [FORTUNE, MAKCCARAT, SECOND_WAY] {
        for cap in [1, u64::MAX] {
            check_not_opened(&rt, Conditions { cap, ..game }, 5_000, Cause::BadConditions)?;
        }
    }
    Ok(())
}

// The odds with one of the five changed.
fn with_odds(odds: [u16; 5], k: usize, n: u16) -> [u16; 5] {
    let mut changed = odds;
    if k < 5 {
        changed[k] = n;
    }
    changed
}

#[test]
fn odds_that_a_game_does_not_ask_for_open_no_table(rt: HostRuntime) -> Result<(), Fail> {
    for k in 0..5 {
        let none_posted = [(FORTUNE, 0), (FORTUNE, 1_001), (STUD, 1), (MAKCCARAT, 1)];
        for (game, n) in none_posted {
            let odds = with_odds(game.odds, k, n);
            check_not_opened(
                &rt,
                Conditions { odds, ..game },
                5_000,
                Cause::BadConditions,
            )?;
        }
    }
    for (k, n) in [
        (0, 0),
        (0, 1_001),
        (1, 0),
        (1, 1_001),
        (2, 1),
        (3, 1),
        (4, 1),
    ] {
        let odds = with_odds(SECOND_WAY.odds, k, n);
        check_not_opened(
            &rt,
            Conditions { odds, ..SECOND_WAY },
            5_000,
            Cause::BadConditions,
        )?;
    }
    Ok(())
}

fn check_open_again(rt: &impl Abort) -> Result<(), Fail> {
    let mut table = OpenTable::open(MAKCCARAT, 5_000)?;
    let again = Command::Open {
        conditions: MAKCCARAT,
        tray: 5_000,
    };
    let broken = Command::Open {
        conditions: Conditions { game: 0, ..STUD },
        tray: u64::MAX,
    };
    perform_all(&mut table, &[buy(1, 100), bet(1, 1, 10)])?;
    check_refused(rt, &mut table, again, Cause::WrongStage, 0);
    check_refused(rt, &mut table, broken, Cause::WrongStage, 0);
    perform_all(&mut table, &[deal(&NINE_TO_EIGHT)])?;
    check_refused(rt, &mut table, again, Cause::WrongStage, 0);
    check_refused(rt, &mut table, broken, Cause::WrongStage, 0);
    Ok(())
}

#[test]
fn an_open_table_is_not_opened_again(rt: HostRuntime) -> Result<(), Fail> {
    check_open_again(&rt)
}
