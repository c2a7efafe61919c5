// Rings, folds and boths, alone and on top of one another.
use sources::{Both, Fold, Ring};
use std::test::Fail;
use tables::{Sheet, Source, weigh};
use weights::{Check, Coded, Refusal, Weight, Wheel};

// The code of what a word weighs: none where the word weighs nothing or is refused.
fn code<W: Coded, S: Source<W>>(source: &S, word: &[u8]) -> Option<u16> {
    weigh(source, word)
        .ok()
        .flatten()
        .map(|weight| weight.code())
}

// Letters come before states.
#[test]
fn a_ring_refuses_in_order(rt: HostRuntime) -> Result<(), Fail> {
    assert_eq!(rt; Ring::new(0, 0, Wheel(1)).err(), Some(Refusal::Letters));
    assert_eq!(rt; Ring::new(4097, 65, Wheel(1)).err(), Some(Refusal::Letters));
    assert_eq!(rt; Ring::new(0, 1, Wheel(1)).err(), Some(Refusal::StateCount));
    assert_eq!(rt;
        Ring::new(4097, 64, Wheel(1)).err(),
        Some(Refusal::StateCount)
    );
    assert_eq!(rt; Ring::new(4096, 64, Wheel(1))?.states(), 4096);
    Ok(())
}

// Three letters lead round, and only the words that end at state 0 weigh something.
#[test]
fn a_ring_of_3_weighs_words_of_3_letters(rt: HostRuntime) -> Result<(), Fail> {
    let ring = Ring::new(3, 2, Wheel(250))?;
    assert_eq!(rt; ring.states(), 3);
    assert_eq!(rt; ring.letters(), 2);
    assert_eq!(rt; ring.start(), 0);
    assert_eq!(rt; ring.is_final(0), Some(true));
    assert_eq!(rt; ring.is_final(2), Some(false));
    assert_eq!(rt; ring.is_final(3), None);
    assert_eq!(rt; ring.target(1, 1), Some(2));
    assert_eq!(rt; ring.target(2, 0), Some(0));
    assert_eq!(rt; ring.target(3, 0), None);
    assert_eq!(rt; ring.target(0, 2), None);
    assert!(rt; ring.weight(0, 2).is_none());
    assert_eq!(rt; code(&ring, &[]), Some(0));
    assert_eq!(rt; code(&ring, &[0, 1]), None);
    assert_eq!(rt; code(&ring, &[0, 1, 0]), Some(30));
    Ok(())
}

// The length of the list comes before its letters, and the first bad letter is told by its place.
#[test]
fn a_fold_refuses_in_order(rt: HostRuntime) -> Result<(), Fail> {
    let ring = Ring::new(3, 2, Check(2))?;
    assert_eq!(rt; Fold::new(ring, &[]).err(), Some(Refusal::Letters));
    assert_eq!(rt; Fold::new(ring, &[9; 65]).err(), Some(Refusal::Letters));
    assert_eq!(rt;
        Fold::new(ring, &[1, 0, 2, 9]).err(),
        Some(Refusal::NoLetterAt(2))
    );
    assert_eq!(rt; Refusal::NoLetterAt(2).number(), 3);
    assert_eq!(rt; Fold::new(ring, &[1; 64])?.letters(), 64);
    Ok(())
}

// Letters 0, 1 and 2 act as letters 1, 0 and 1 of a sheet, whose letter 0 turns in place and whose letter 1 leads off.
#[test]
fn a_fold_acts_as_the_letters_of_its_list(rt: HostRuntime) -> Result<(), Fail> {
    let sheet = Sheet::new(&[0u16, 0, 9], &[Check(5), Check(3), Check(7)], &[1u8], 1, 2)?;
    let fold = Fold::new(sheet, &[1, 0, 1])?;
    assert_eq!(rt; fold.states(), 2);
    assert_eq!(rt; fold.letters(), 3);
    assert_eq!(rt; fold.target(0, 0), Some(1));
    assert_eq!(rt; fold.target(0, 1), Some(0));
    assert_eq!(rt; fold.target(0, 3), None);
    assert!(rt; fold.weight(0, 3).is_none());
    assert_eq!(rt; fold.is_final(0), Some(true));
    assert_eq!(rt; code(&fold, &[1, 1]), Some(45));
    assert_eq!(rt; code(&fold, &[1, 2]), None);
    assert_eq!(rt; weigh(&fold, &[1, 3]).err(), Some(Refusal::NoLetterAt(1)));
    Ok(())
}

// Unequal letters come before the number of pairs.
#[test]
fn a_both_refuses_in_order(rt: HostRuntime) -> Result<(), Fail> {
    let wide = Ring::new(65, 2, Wheel(1))?;
    let narrow = Ring::new(64, 1, Wheel(1))?;
    assert_eq!(rt;
        Both::new(wide, narrow).err(),
        Some(Refusal::UnequalLetters)
    );
    assert_eq!(rt; Refusal::UnequalLetters.number(), 9);
    assert_eq!(rt; Both::new(wide, wide).err(), Some(Refusal::StateCount));
    assert_eq!(rt; Both::new(narrow, narrow)?.states(), 4096);
    Ok(())
}

// Rings of 2 and 3 side by side are together at 0 after six letters.
#[test]
fn rings_of_2_and_3_side_by_side(rt: HostRuntime) -> Result<(), Fail> {
    let both = Both::new(Ring::new(2, 1, Wheel(1))?, Ring::new(3, 1, Wheel(1))?)?;
    assert_eq!(rt; both.states(), 6);
    assert_eq!(rt; both.start(), 0);
    assert_eq!(rt; both.target(0, 0), Some(4));
    assert_eq!(rt; both.target(5, 0), Some(0));
    assert_eq!(rt; both.target(6, 0), None);
    assert_eq!(rt; both.is_final(0), Some(true));
    assert_eq!(rt; both.is_final(3), Some(false));
    assert_eq!(rt; both.is_final(6), None);
    assert!(rt; both.weight(6, 0).is_none());
    assert_eq!(rt; code(&both, &[0; 3]), None);
    assert_eq!(rt; code(&both, &[0; 4]), None);
    assert_eq!(rt; code(&both, &[0; 6]), Some(12));
    Ok(())
}

// A both over a fold over a both: letter 0 of the pile turns all three rings, and so does letter 1.
#[test]
fn a_pile_three_deep(rt: HostRuntime) -> Result<(), Fail> {
    let low = Both::new(Ring::new(2, 1, Check(2))?, Ring::new(3, 1, Check(3))?)?;
    let pile = Both::new(Fold::new(low, &[0, 0])?, Ring::new(2, 2, Check(5))?)?;
    assert_eq!(rt; pile.states(), 12);
    assert_eq!(rt; pile.letters(), 2);
    assert_eq!(rt; pile.target(0, 1), Some(9));
    assert_eq!(rt; pile.is_final(0), Some(true));
    assert!(rt; pile.start_weight().same(Check::one()));
    assert_eq!(rt; code(&pile, &[0, 1, 0]), None);
    assert_eq!(rt; code(&pile, &[0, 1, 0, 1, 1, 0]), Some(225));
    Ok(())
}
