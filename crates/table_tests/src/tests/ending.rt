// Settle and Void, both only on a dealt table, and what a settlement writes.
use super::{
    FORTUNE, MAKCCARAT, MARK, NINE_TO_EIGHT, bet, buy, check_done, check_refused,
    check_refused_with, deal, leave, perform, perform_all, raise,
};
use commands::Command;
use ledger::entries::Entry;
use ledger::rolls::Roll;
use open_table::open_table::OpenTable;
use refusals::{Cause, Refusal};
use std::process::Abort;
use std::test::Fail;

// Seats 1, 4 and 7 have laid their 100 on the player, who wins.
fn three_staking() -> Result<OpenTable, Refusal> {
    let mut table = OpenTable::open(MAKCCARAT, 5_000)?;
    for seat in [1, 4, 7] {
        perform_all(&mut table, &[buy(seat, 100), bet(seat, 1, 100)])?;
    }
    perform(&mut table, deal(&NINE_TO_EIGHT))?;
    Ok(table)
}

// What a seat has of a stake of 100 on the player.
fn won(seat: u8) -> Entry {
    Entry {
        round: 1,
        seat,
        staked: 100,
        returned: 200,
        net: 100,
    }
}

fn check_too_few(rt: &impl Abort) -> Result<(), Fail> {
    let mut table = three_staking()?;
    let mut slots = [MARK; 7];
    for places in 0..3 {
        let mut ledger = Roll::new(&mut slots[..places]);
        check_refused_with(
            rt,
            &mut table,
            &mut ledger,
            Command::Settle,
            Cause::NoPlaceFree,
            0,
        );
        assert!(rt; slots == [MARK; 7]);
    }
    let mut none: [Entry; 0] = [];
    let mut ledger = Roll::new(&mut none);
    check_refused_with(
        rt,
        &mut table,
        &mut ledger,
        Command::Settle,
        Cause::NoPlaceFree,
        0,
    );
    // the round is still dealt, and still settles
    check_done(rt, &mut table, Command::Settle, [4_700, 600, 0]);
    Ok(())
}

#[test]
fn a_ledger_with_too_few_places_takes_no_settlement(rt: HostRuntime) -> Result<(), Fail> {
    check_too_few(&rt)
}

fn check_as_many(rt: &impl Abort) -> Result<(), Fail> {
    let mut table = three_staking()?;
    let mut slots = [MARK; 7];
    let mut ledger = Roll::new(&mut slots[..3]);
    table.perform(Command::Settle, &mut ledger)?;
    assert_eq!(rt; ledger.free(), 0);
    assert!(rt; slots == [won(1), won(4), won(7), MARK, MARK, MARK, MARK]);
    check_refused(rt, &mut table, Command::Settle, Cause::WrongStage, 0);
    Ok(())
}

#[test]
fn a_ledger_with_as_many_places_takes_a_settlement(rt: HostRuntime) -> Result<(), Fail> {
    check_as_many(&rt)
}

// What is kept already takes its places.
fn check_partly_full(rt: &impl Abort) -> Result<(), Fail> {
    let mut table = three_staking()?;
    let mut slots = [MARK; 5];
    let mut ledger = Roll::new(&mut slots);
    let kept = Entry::new(9, 2, 10, 0)?;
    for _ in 0..3 {
        ledger.keep(kept)?;
    }
    check_refused_with(
        rt,
        &mut table,
        &mut ledger,
        Command::Settle,
        Cause::NoPlaceFree,
        0,
    );
    assert_eq!(rt; ledger.records(), [kept; 3].as_slice());
    ledger.clear();
    ledger.keep(kept)?;
    table.perform(Command::Settle, &mut ledger)?;
    assert_eq!(rt; ledger.records(), [kept, won(1), won(4), won(7)].as_slice());
    Ok(())
}

#[test]
fn a_ledger_that_is_partly_full_counts_what_is_free(rt: HostRuntime) -> Result<(), Fail> {
    check_partly_full(&rt)
}

// Seat 1 has Pair Plus alone and no choice; seats 2 and 6 have an ante.
fn two_choosing() -> Result<OpenTable, Refusal> {
    let mut table = OpenTable::open(FORTUNE, 50_000)?;
    let commands = [
        buy(1, 50),
        buy(2, 100),
        buy(6, 200),
        bet(1, 3, 50),
        bet(2, 1, 100),
        bet(6, 1, 100),
        deal(&[
            0x81, 0x31, 0xC0, 0x72, 0x60, 0x52, 0xA0, 0xA3, 0xE0, 0x90, 0x91, 0x53,
        ]),
    ];
    perform_all(&mut table, &commands)?;
    Ok(table)
}

fn check_choices(rt: &impl Abort) -> Result<(), Fail> {
    let mut table = OpenTable::open(FORTUNE, 50_000)?;
    check_refused(rt, &mut table, Command::Settle, Cause::WrongStage, 0);
    let mut table = two_choosing()?;
    let table = &mut table;
    let mut none: [Entry; 0] = [];
    let mut ledger = Roll::new(&mut none);
    check_refused(rt, table, Command::Settle, Cause::ChoiceMissing, 2);
    check_refused_with(
        rt,
        table,
        &mut ledger,
        Command::Settle,
        Cause::ChoiceMissing,
        2,
    );
    perform_all(table, &[leave(2)])?;
    check_refused(rt, table, Command::Settle, Cause::ChoiceMissing, 6);
    perform_all(table, &[raise(6)])?;
    check_refused_with(
        rt,
        table,
        &mut ledger,
        Command::Settle,
        Cause::NoPlaceFree,
        0,
    );
    // seats 1 and 2 lose, and seat 6 has 400 of its 200
    check_done(rt, table, Command::Settle, [49_950, 400, 0]);
    check_refused_with(
        rt,
        table,
        &mut ledger,
        Command::Settle,
        Cause::WrongStage,
        0,
    );
    Ok(())
}

#[test]
fn a_settlement_waits_for_every_choice(rt: HostRuntime) -> Result<(), Fail> {
    check_choices(&rt)
}

fn check_void(rt: &impl Abort) -> Result<(), Fail> {
    let mut table = OpenTable::open(FORTUNE, 50_000)?;
    check_refused(rt, &mut table, Command::Void, Cause::WrongStage, 0);
    let mut table = two_choosing()?;
    let table = &mut table;
    perform_all(table, &[leave(2), raise(6)])?;
    let mut slots = [MARK; 2];
    let mut ledger = Roll::new(&mut slots);
    table.perform(Command::Void, &mut ledger)?;
    assert_eq!(rt; ledger.free(), 2);
    assert!(rt; slots == [MARK; 2]);
    check_refused(rt, table, Command::Void, Cause::WrongStage, 0);
    check_refused(rt, table, Command::Settle, Cause::WrongStage, 0);
    check_done(rt, table, bet(6, 1, 100), [50_000, 250, 100]);
    perform(table, deal(&[0x72, 0x60, 0x52, 0x90, 0x91, 0x53]))?;
    check_refused(rt, table, Command::Settle, Cause::ChoiceMissing, 6);
    Ok(())
}

#[test]
fn a_void_gives_back_stakes_and_raises_and_forgets_choices(rt: HostRuntime) -> Result<(), Fail> {
    check_void(&rt)
}

// Whatever the order of the bets, the entries are in that of the seats.
fn check_seven_entries(rt: &impl Abort) -> Result<(), Fail> {
    let mut table = OpenTable::open(MAKCCARAT, 5_000)?;
    for (seat, space, amount) in [(7, 1, 70), (3, 2, 30), (1, 1, 10), (6, 3, 60), (2, 1, 20)] {
        perform_all(&mut table, &[buy(seat, 100), bet(seat, space, amount)])?;
    }
    perform_all(
        &mut table,
        &[buy(5, 50), bet(5, 1, 50), buy(4, 40), bet(4, 2, 40)],
    )?;
    perform(&mut table, deal(&NINE_TO_EIGHT))?;
    let mut slots = [MARK; 9];
    table.perform(Command::Settle, &mut Roll::new(&mut slots))?;
    let wanted = [
        Entry::new(1, 1, 10, 20)?,
        Entry::new(1, 2, 20, 40)?,
        Entry::new(1, 3, 30, 0)?,
        Entry::new(1, 4, 40, 0)?,
        Entry::new(1, 5, 50, 100)?,
        Entry::new(1, 6, 60, 0)?,
        Entry::new(1, 7, 70, 140)?,
        MARK,
        MARK,
    ];
    assert!(rt; slots == wanted);
    Ok(())
}

#[test]
fn seven_seats_have_an_entry_each_in_their_order(rt: HostRuntime) -> Result<(), Fail> {
    check_seven_entries(&rt)
}

// Three settlements of Fortune and a void, whose round is counted and has no entry, on one ledger.
fn check_rounds_entered(rt: &impl Abort) -> Result<(), Fail> {
    let mut table = OpenTable::open(FORTUNE, 50_000)?;
    perform_all(&mut table, &[buy(2, 1_000), buy(5, 1_000)])?;
    let mut slots = [MARK; 6];
    let mut ledger = Roll::new(&mut slots);
    let rounds = [
        // three sevens and a pair of fours against K-9-2: both win, with Pair Plus
        bet(2, 1, 100),
        bet(2, 3, 10),
        bet(5, 1, 100),
        bet(5, 3, 10),
        deal(&[0x70, 0x71, 0x72, 0x40, 0x41, 0x92, 0xD0, 0x93, 0x21]),
        raise(2),
        raise(5),
        Command::Settle,
        // a seat that leaves loses its ante
        bet(5, 1, 100),
        deal(&[0x72, 0x60, 0x52, 0x90, 0x91, 0x53]),
        leave(5),
        Command::Settle,
        bet(5, 1, 100),
        deal(&[0x72, 0x60, 0x52, 0x90, 0x91, 0x53]),
        Command::Void,
        // 4-3-2 against 3-2-A, the lowest straight
        bet(2, 1, 100),
        deal(&[0x40, 0x31, 0x22, 0x33, 0x20, 0xE1]),
        raise(2),
        Command::Settle,
    ];
    for command in rounds {
        table.perform(command, &mut ledger)?;
    }
    let wanted = [
        Entry::new(1, 2, 210, 1_060)?,
        Entry::new(1, 5, 210, 420)?,
        Entry::new(2, 5, 100, 0)?,
        Entry::new(4, 2, 200, 500)?,
        MARK,
        MARK,
    ];
    assert_eq!(rt; ledger.free(), 2);
    assert!(rt; slots == wanted);
    let closing = table.closing();
    assert_eq!(rt;
        [closing.tray, closing.racks, closing.spaces],
        [48_740, 3_260, 0]
    );
    Ok(())
}

#[test]
fn settlements_write_one_behind_the_other(rt: HostRuntime) -> Result<(), Fail> {
    check_rounds_entered(&rt)
}
