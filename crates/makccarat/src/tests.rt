// Rounds worked by hand.
use crate::front::front;
use crate::posted::Makccarat;
use crate::round::{final_total, winner};
use crate::side::Side;
use crate::way::Way;
use game::choice::Choice;
use game::deal::Deal;
use game::interface::Game;
use game::taking::Barred;
use std::test::Fail;

// These cards, dealt where seat 1 alone stakes.
fn dealt<'a>(cards: &'a [u8]) -> Deal<'a> {
    Deal {
        staking: [true, false, false, false, false, false, false],
        cards,
    }
}

// Nine and king against five and three: 9 to 8, no card is added, and the player's 100 brings 200.
#[test]
fn nine_ends_the_round(rt: HostRuntime) -> Result<(), Fail> {
    let game = Makccarat::open(Way::First, 0, [0; 5])?;
    let cards = [0x93, 0x50, 0xD2, 0x31];
    let deal = dealt(&cards);
    assert_eq!(rt; game.deals(&deal), Ok(()));
    assert_eq!(rt; winner(Way::First, &cards), Some(Side::Player));
    assert_eq!(rt;
        game.returns(0, &[100, 50, 10, 0, 0], Choice::Open, &deal),
        200
    );
    Ok(())
}

// Two and three against three and two: both add one, 5 + 4 against 5 + 4, a tie; sides come back and the tie pays its posted 8.
#[test]
fn equal_totals_add_one_each(rt: HostRuntime) -> Result<(), Fail> {
    let game = Makccarat::open(Way::Second, 0, [8, 11, 0, 0, 0])?;
    let cards = [0x20, 0x30, 0x31, 0x21, 0x40, 0x41];
    let deal = dealt(&cards);
    assert_eq!(rt; game.deals(&deal), Ok(()));
    assert_eq!(rt; winner(Way::Second, &cards), None);
    assert_eq!(rt;
        game.returns(0, &[100, 50, 10, 0, 0], Choice::Open, &deal),
        100 + 50 + 90
    );
    Ok(())
}

// Two sixes against seven and ten: the player's 2 takes a three, 5 against 7, still lower; its pair pays 11 all the same.
#[test]
fn a_losing_pair_pays(rt: HostRuntime) -> Result<(), Fail> {
    let game = Makccarat::open(Way::First, 0, [0; 5])?;
    let cards = [0x60, 0x70, 0x61, 0xA0, 0x30];
    let deal = dealt(&cards);
    assert_eq!(rt; final_total(Way::First, &cards, Side::Player), 5);
    assert_eq!(rt;
        game.returns(0, &[100, 0, 0, 10, 10], Choice::Open, &deal),
        120
    );
    assert_eq!(rt; game.ceiling(&[100, 0, 0, 10, 10]), 320);
    Ok(())
}

// The cards behind the deal are not dealt.
#[test]
fn a_row_begins_with_its_deal(rt: HostRuntime) {
    let row = [0x40, 0x20, 0x30, 0x30, 0x20, 0x90, 0xE0];
    assert_eq!(rt; front(Way::First, &row), Some(6));
    assert_eq!(rt; front(Way::Second, &row), Some(5));
}

#[test]
fn a_pair_needs_its_companion(rt: HostRuntime) -> Result<(), Fail> {
    let game = Makccarat::open(Way::First, 0, [0; 5])?;
    assert_eq!(rt; game.takes(&[0; 5], 4), Err(Barred::NoCompanion));
    assert_eq!(rt; game.takes(&[0, 0, 5, 0, 0], 4), Ok(()));
    assert_eq!(rt; game.takes(&[5; 5], 6), Err(Barred::NoBets));
    Ok(())
}

#[test]
fn the_first_way_takes_no_odds(rt: HostRuntime) {
    assert!(rt; Makccarat::open(Way::First, 0, [8, 11, 0, 0, 0]).is_err());
    assert!(rt; Makccarat::open(Way::Second, 0, [8, 1001, 0, 0, 0]).is_err());
}
