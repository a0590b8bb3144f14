// A table with the history of its calls: each is handed a ledger of its caller's, a partly full one too, and its answer comes back.
use super::{MARK, NINE_TO_EIGHT, bet, buy, deal};
use commands::Command;
use games::any_game::AnyGame;
use history::histories::History;
use ledger::entries::Entry;
use ledger::rolls::Roll;
use refusals::{Cause, Refusal};
use std::alloc::Global;
use std::process::Abort;
use std::test::Fail;
use table::opening::Opening;

const OPENING: Opening = Opening {
    minimum: 10,
    maximum: 1_000,
    tray: 5_000,
};

fn newly_opened(alloc: Global, opening: Opening) -> Result<History<'static, AnyGame>, Refusal> {
    let game = AnyGame::new(3, 0, [0; 5])?;
    History::open(alloc, game, opening)
}

// Two seats stake 100 each on the player, who wins. The ledger that is handed in has one place, and then two, behind a record that is there.
fn check_partly_full(rt: &impl Abort, alloc: Global) -> Result<(), Fail> {
    let mut table = newly_opened(alloc, OPENING)?;
    let mut slots = [MARK; 3];
    let mut ledger = Roll::new(&mut slots[..2]);
    ledger.keep(MARK)?;
    for command in [buy(1, 100), bet(1, 1, 100), buy(2, 150), bet(2, 1, 100)] {
        assert_eq!(rt; table.perform(command, &mut ledger)?, Ok(()));
    }
    let late = table.perform(Command::Settle, &mut ledger)?;
    assert_eq!(rt; late, Err(Refusal::new(Cause::WrongStage, 0)));
    assert_eq!(rt; table.perform(deal(&NINE_TO_EIGHT), &mut ledger)?, Ok(()));
    let full = table.perform(Command::Settle, &mut ledger)?;
    assert_eq!(rt; full, Err(Refusal::new(Cause::NoPlaceFree, 0)));
    assert_eq!(rt; ledger.records(), [MARK].as_slice());
    let mut ledger = Roll::new(&mut slots);
    ledger.keep(MARK)?;
    assert_eq!(rt; table.perform(Command::Settle, &mut ledger)?, Ok(()));
    let won = |seat| Entry {
        round: 1,
        seat,
        staked: 100,
        returned: 200,
        net: 100,
    };
    assert_eq!(rt; ledger.records(), [MARK, won(1), won(2)].as_slice());
    Ok(())
}

// What a call brought and took away counts where it was accepted, and all adds up.
fn check_position(rt: &impl Abort, alloc: Global) -> Result<(), Fail> {
    let mut table = newly_opened(alloc, OPENING)?;
    let mut slots = [MARK; 0];
    let mut ledger = Roll::new(&mut slots);
    for command in [
        buy(7, 300),
        Command::Fill { amount: 50 },
        Command::Cash {
            seat: 7,
            amount: 120,
        },
        Command::Draw { amount: 1_000 },
    ] {
        assert_eq!(rt; table.perform(command, &mut ledger)?, Ok(()));
    }
    let poor = table.perform(
        Command::Cash {
            seat: 7,
            amount: 181,
        },
        &mut ledger,
    )?;
    assert_eq!(rt; poor, Err(Refusal::new(Cause::RackTooSmall, 7)));
    let position = table.position();
    assert_eq!(rt; position.opening_tray, 5_000);
    assert_eq!(rt; position.deposited, 350);
    assert_eq!(rt; position.withdrawn, 1_120);
    assert_eq!(rt; position.tray, 4_050);
    assert_eq!(rt; position.racks, 180);
    assert_eq!(rt; position.spaces, 0);
    assert_eq!(rt; position.seats, [0, 0, 0, 0, 0, 0, 180]);
    Ok(())
}

#[test]
fn a_partly_full_ledger_is_written_behind(rt: HostRuntime) -> Result<(), Fail> {
    check_partly_full(&rt, rt.alloc())
}

#[test]
fn the_position_of_a_history_adds_up(rt: HostRuntime) -> Result<(), Fail> {
    check_position(&rt, rt.alloc())
}
