use std::test::Fail;
use tables::{Sheet, Source, weigh};
use weights::{Coded, Refusal, Weight, Wheel};

// Letters before states, states before memories.
#[test]
fn a_sheet_refuses_in_order(rt: HostRuntime) {
    let targets = [0u16; 3];
    let weights = [Wheel(0); 3];
    let marks = [0u8; 1];
    assert_eq!(rt;
        Sheet::new(&targets, &weights, &marks, 4096, 0).err(),
        Some(Refusal::Letters)
    );
    assert_eq!(rt;
        Sheet::new(&targets, &weights, &marks, 4096, 65).err(),
        Some(Refusal::Letters)
    );
    assert_eq!(rt;
        Sheet::new(&targets, &weights, &marks, 4096, 64).err(),
        Some(Refusal::StateCount)
    );
    assert_eq!(rt;
        Sheet::new(&targets, &weights, &marks, 4095, 64).err(),
        Some(Refusal::ShortMemory)
    );
    assert_eq!(rt;
        Sheet::new(&targets[0..2], &weights, &marks, 1, 2).err(),
        Some(Refusal::ShortMemory)
    );
    assert_eq!(rt;
        Sheet::new(&targets, &weights[0..2], &marks, 1, 2).err(),
        Some(Refusal::ShortMemory)
    );
    assert_eq!(rt;
        Sheet::new(&targets, &weights, &marks[0..0], 1, 2).err(),
        Some(Refusal::ShortMemory)
    );
    assert!(rt; Sheet::new(&targets, &weights, &marks, 1, 2).is_ok());
    assert_eq!(rt; Refusal::ShortMemory.number(), 6);
    assert_eq!(rt; Refusal::StateCount.number(), 8);
}

// One state over two letters: letter 0 leads back to it, and the target 9 of letter 1 means the off state.
#[test]
fn a_sheet_answers_as_its_table(rt: HostRuntime) -> Result<(), Fail> {
    let targets = [0u16, 0, 9];
    let weights = [Wheel(700), Wheel(30), Wheel(5)];
    let marks = [3u8];
    let sheet = Sheet::new(&targets, &weights, &marks, 1, 2)?;
    assert_eq!(rt; sheet.states(), 2);
    assert_eq!(rt; sheet.letters(), 2);
    assert_eq!(rt; sheet.is_final(0), Some(true));
    assert_eq!(rt; sheet.is_final(1), Some(false));
    assert_eq!(rt; sheet.is_final(2), None);
    assert_eq!(rt; sheet.target(0, 0), Some(0));
    assert_eq!(rt; sheet.target(0, 1), Some(1));
    assert_eq!(rt; sheet.target(1, 0), Some(1));
    assert_eq!(rt; sheet.target(0, 2), None);
    assert_eq!(rt; sheet.target(2, 0), None);
    assert!(rt; sheet.weight(0, 1).ok_or("none")?.same(Wheel::one()));
    assert!(rt; sheet.weight(2, 0).is_none());
    assert_eq!(rt; weigh(&sheet, &[])?.ok_or("none")?.code(), 700);
    assert_eq!(rt; weigh(&sheet, &[0])?.ok_or("none")?.code(), 10);
    assert!(rt; weigh(&sheet, &[0, 1])?.is_none());
    Ok(())
}

// Only the lowest bit of a mark says that a state is final.
#[test]
fn only_the_lowest_bit_of_a_mark_counts(rt: HostRuntime) -> Result<(), Fail> {
    let sheet = Sheet::new(&[0u16, 0], &[Wheel(0), Wheel(0)], &[6u8], 1, 1)?;
    assert_eq!(rt; sheet.is_final(0), Some(false));
    Ok(())
}
