// The tables that compiling left, read as views where they lie.
use crate::compiled::{FORK_MARKS, FORK_TARGETS, codes, compile_exactly, fork_weights, report};
use drafts::write_draft;
use minimize::TableView;
use std::test::Fail;
use tables::{Sheet, Source, weigh};
use weights::{Check, Coded};

// The fork in which nothing merges: its hyper table has no off state, weighs words, has a draft file of its own, and is least.
#[test]
fn a_hyper_table_is_read_as_a_view(rt: HostRuntime) -> Result<(), Fail> {
    let weights = fork_weights(11);
    let sheet = Sheet::new(&FORK_TARGETS, &weights, &FORK_MARKS, 4, 2)?;
    let made = compile_exactly(&rt, &sheet)?;
    let hyper = made.hyper_table(2);
    assert_eq!(rt; hyper.states(), 4);
    assert_eq!(rt; weigh(&hyper, &[0, 1])?.ok_or("none")?.code(), 28);
    assert!(rt; weigh(&hyper, &[0])?.is_none());
    let mut bytes = [0u8; 108];
    assert_eq!(rt; write_draft(&hyper, &mut bytes), Ok(108));
    let drawn = b"\x01\0\x02\x01\x02\
\x02\0\x01\0\x02\0\x01\0\x02\0\x01\x01\x02\0\x01\x01\
\x03\0\x07\0\0\0\0\x01\0\x02\
\x03\0\x07\0\0\x01\0\x02\0\x01\
\x03\0\x07\0\x01\0\0\x03\0\x01\
\x03\0\x07\0\x01\x01\0\x03\0\x02\
\x03\0\x07\0\x02\0\0\x03\0\x05\
\x03\0\x07\0\x02\x01\0\x03\0\x0b\
\x03\0\x07\0\x03\0\0\x03\0\x03\
\x03\0\x07\0\x03\x01\0\x03\0\x01\
\x04\0\x04\0\0\0\x07";
    assert_eq!(rt; bytes, *drawn);
    let again = compile_exactly(&rt, &hyper)?;
    assert_eq!(rt; again.report, report(4, 4, 1));
    assert!(rt; again.targets.starts_with(&[0, 1, 2, 3, 3, 3, 3, 3, 3]));
    assert!(rt; codes(&rt, &again.weights)?.starts_with(&[7, 2, 1, 1, 2, 5, 11, 3, 1]));
    assert!(rt; again.marks.starts_with(&[4, 4, 5, 7]));
    Ok(())
}

// The fork in which state 2 merges into state 1. Its hyper table has lost word 1, so that state 0 has push 2 there: the least table of the
// hyper table has the same states and targets, and other weights.
#[test]
fn a_merged_table_is_compiled_again(rt: HostRuntime) -> Result<(), Fail> {
    let weights = fork_weights(10);
    let sheet = Sheet::new(&FORK_TARGETS, &weights, &FORK_MARKS, 4, 2)?;
    let made = compile_exactly(&rt, &sheet)?;
    let hyper = made.hyper_table(2);
    assert_eq!(rt; hyper.states(), 3);
    assert_eq!(rt; weigh(&hyper, &[0, 1])?.ok_or("none")?.code(), 28);
    assert!(rt; weigh(&hyper, &[1])?.is_none());
    let again = compile_exactly(&rt, &hyper)?;
    assert_eq!(rt; again.report, report(3, 3, 1));
    assert!(rt; again.targets.starts_with(&[0, 1, 1, 2, 2, 2, 2]));
    assert!(rt; codes(&rt, &again.weights)?.starts_with(&[14, 1, 131, 1, 2, 3, 1]));
    assert!(rt; again.marks.starts_with(&[4, 4, 7]));
    Ok(())
}

// The fork with state 0 final too, so that its push stays one without word 1. State 2 merges into state 1, nothing more does, and the hyper
// table is its own least table.
#[test]
fn a_merged_table_is_its_own_least_table(rt: HostRuntime) -> Result<(), Fail> {
    let weights = fork_weights(10);
    let sheet = Sheet::new(&FORK_TARGETS, &weights, &[1u8, 0, 1, 1], 4, 2)?;
    let made = compile_exactly(&rt, &sheet)?;
    assert_eq!(rt; made.report, report(4, 3, 1));
    assert!(rt; made.hyper_targets.starts_with(&[0, 1, 1, 2, 2, 2, 2]));
    assert!(rt; codes(&rt, &made.hyper_weights)?.starts_with(&[7, 2, 5, 1, 2, 3, 1]));
    let again = compile_exactly(&rt, &made.hyper_table(2))?;
    assert_eq!(rt; again.report, report(3, 3, 1));
    assert!(rt; again.targets.starts_with(&[0, 1, 1, 2, 2, 2, 2]));
    assert!(rt; codes(&rt, &again.weights)?.starts_with(&[7, 2, 5, 1, 2, 3, 1]));
    assert!(rt; again.marks.starts_with(&[5, 4, 7]));
    Ok(())
}

// Whatever a view holds, it has a state and a letter at least, and leads to states of its own.
#[test]
fn a_view_over_nothing(rt: HostRuntime) -> Result<(), Fail> {
    let none: [Check; 0] = [];
    let least = TableView::new(&[], &none, &[], 0, 0);
    assert_eq!(rt; least.states(), 1);
    assert_eq!(rt; least.letters(), 1);
    assert_eq!(rt; least.target(0, 0), Some(0));
    assert_eq!(rt; least.target(0, 1), None);
    assert_eq!(rt; least.is_final(0), Some(false));
    let largest = TableView::new(&[7u16, 4096], &none, &[2u8, 3], 4097, 255);
    assert_eq!(rt; largest.states(), 4096);
    assert_eq!(rt; largest.letters(), 64);
    assert_eq!(rt; largest.start(), 7);
    assert_eq!(rt; largest.target(0, 0), Some(4095));
    assert_eq!(rt; largest.is_final(0), Some(false));
    assert_eq!(rt; largest.is_final(1), Some(true));
    assert_eq!(rt; largest.weight(4095, 63).ok_or("none")?.code(), 1);
    Ok(())
}
