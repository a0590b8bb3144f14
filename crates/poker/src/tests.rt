// Rounds worked by hand, Fortune at odds of 40, 25, 5, 4 and 1.
use crate::dealing::HandSize;
use crate::fortune::posted::Fortune;
use crate::stud::posted::Stud;
use game::choice::Choice;
use game::deal::Deal;
use game::dealing::Misdeal;
use game::interface::Game;
use game::taking::Barred;
use grading::ByRule;
use std::test::Fail;

const PUBLISHED: [u16; 5] = [40, 25, 5, 4, 1];

const SEATS_TWO_AND_FIVE: [bool; 7] = [false, true, false, false, true, false, false];

// Seat 2 holds three sevens, seat 5 a pair of fours, and the bank K-9-2, which opens.
#[test]
fn each_seat_plays_its_own_hand(rt: HostRuntime) -> Result<(), Fail> {
    let game = Fortune::open(ByRule, 0, PUBLISHED)?;
    let cards = [0x70, 0x71, 0x72, 0x40, 0x41, 0x92, 0xD0, 0x93, 0x21];
    let deal = Deal {
        staking: SEATS_TWO_AND_FIVE,
        cards: &cards,
    };
    assert_eq!(rt; game.deals(&deal), Ok(()));
    assert_eq!(rt; HandSize::Three.seat_hand(4, &deal), &cards[3..6]);
    assert_eq!(rt; HandSize::Three.bank_hand(&deal), &cards[6..]);
    let stakes = [100, 0, 10, 0, 0];
    assert_eq!(rt;
        game.returns(1, &stakes, Choice::Raised, &deal),
        200 + 400 + 200 + 260
    );
    assert_eq!(rt;
        game.returns(4, &stakes, Choice::Raised, &deal),
        200 + 200 + 20
    );
    Ok(())
}

// Against J-10-8 the raise comes back unpaid, and the straight has its bonus all the same.
#[test]
fn a_bank_that_does_not_open_pays_the_ante(rt: HostRuntime) -> Result<(), Fail> {
    let game = Fortune::open(ByRule, 0, PUBLISHED)?;
    let own = [0x40, 0x31, 0x22];
    let bank = [0xB0, 0xA1, 0x83];
    assert!(rt; !game.opens(&bank));
    assert_eq!(rt;
        game.hand_return(&[100, 0, 0, 0, 0], Choice::Raised, &own, &bank),
        200 + 100 + 100
    );
    assert_eq!(rt; game.ceiling(&[100, 0, 10, 0, 0]), 700 + 400);
    Ok(())
}

#[test]
fn fortune_takes_ante_and_pair_plus(rt: HostRuntime) -> Result<(), Fail> {
    let game = Fortune::open(ByRule, 0, PUBLISHED)?;
    assert_eq!(rt; game.takes(&[0; 5], 3), Ok(()));
    assert_eq!(rt; game.takes(&[100, 0, 0, 0, 0], 2), Err(Barred::NoBets));
    assert!(rt; !game.leaves(&[100, 0, 10, 0, 0]));
    assert!(rt; Fortune::open(ByRule, 0, [40, 25, 5, 4, 0]).is_err());
    Ok(())
}

// A royal flush at an ante of 100 would be paid 10,000 on its raise; a cap of 3,000 holds it, and not the ante.
#[test]
fn a_cap_holds_what_the_raise_is_paid(rt: HostRuntime) -> Result<(), Fail> {
    let game = Stud::open(3_000, [0; 5])?;
    let own = [0xE3, 0xD3, 0xC3, 0xB3, 0xA3];
    let bank = [0xE0, 0xE1, 0x92, 0x73, 0x40];
    assert!(rt; Stud::opens(&bank));
    let stakes = [100, 0, 0, 0, 0];
    assert_eq!(rt;
        game.hand_return(&stakes, Choice::Raised, &own, &bank),
        200 + 200 + 3_000
    );
    assert_eq!(rt; game.hand_return(&stakes, Choice::Left, &own, &bank), 0);
    assert_eq!(rt; game.ceiling(&stakes), 100 + 3_000);
    Ok(())
}

// One card twice is no deal, whatever the number; one card too few is the wrong count.
#[test]
fn stud_deals_five_cards_each(rt: HostRuntime) -> Result<(), Fail> {
    let game = Stud::open(1, [0; 5])?;
    let staking = [true, false, false, false, false, false, false];
    let twice = Deal {
        staking,
        cards: &[0x20, 0x20],
    };
    assert_eq!(rt; game.deals(&twice), Err(Misdeal::NoCard));
    let short = Deal {
        staking,
        cards: &[0x20, 0x30, 0x40, 0x50, 0x60, 0x70, 0x80, 0x90, 0xA0],
    };
    assert_eq!(rt; game.deals(&short), Err(Misdeal::WrongCount));
    Ok(())
}
