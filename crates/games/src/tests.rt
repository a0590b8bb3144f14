// Rounds at games opened by their number.
use crate::any_game::AnyGame;
use game::choice::Choice;
use game::deal::Deal;
use game::interface::Game;
use std::test::Fail;

const ANTE: [u32; 5] = [100, 0, 0, 0, 0];

// These cards, dealt where seat 1 alone stakes.
fn dealt<'a>(cards: &'a [u8]) -> Deal<'a> {
    Deal {
        staking: [true, false, false, false, false, false, false],
        cards,
    }
}

// 4-3-2 against 3-2-A in Fortune.
#[test]
fn the_lowest_straight_loses(rt: HostRuntime) -> Result<(), Fail> {
    let game = AnyGame::new(1, 0, [40, 25, 5, 4, 1])?;
    let cards = [0x40, 0x31, 0x22, 0x33, 0x20, 0xE1];
    assert_eq!(rt; game.returns(0, &ANTE, Choice::Raised, &dealt(&cards)), 500);
    Ok(())
}

// Four nines against two aces in Stud.
#[test]
fn four_nines_meet_the_cap(rt: HostRuntime) -> Result<(), Fail> {
    let game = AnyGame::new(2, 3_000, [0; 5])?;
    let cards = [0x90, 0x91, 0x92, 0x93, 0x41, 0xE3, 0xE2, 0xA1, 0x70, 0x23];
    assert_eq!(rt;
        game.returns(0, &ANTE, Choice::Raised, &dealt(&cards)),
        3_400
    );
    Ok(())
}

// Six cards with a banker's 7 to 6 in game 3; game 4 calls for five of them.
#[test]
fn numbers_name_the_ways(rt: HostRuntime) -> Result<(), Fail> {
    let first = AnyGame::new(3, 0, [0; 5])?;
    let second = AnyGame::new(4, 0, [8, 11, 0, 0, 0])?;
    let cards = [0x40, 0x20, 0x30, 0x30, 0x20, 0x90];
    assert!(rt; first.deals(&dealt(&cards)).is_ok());
    assert!(rt; second.deals(&dealt(&cards)).is_err());
    assert!(rt; AnyGame::new(5, 0, [0; 5]).is_err());
    Ok(())
}
