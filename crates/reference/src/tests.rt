use crate::compile_by_definition;
use std::test::Fail;
use tables::Sheet;
use weights::{Check, Coded, Weight, Wheel};

// States 1 and 2 lead to state 3; states 2 and 3 are final.
const TARGETS: [u16; 9] = [0, 1, 2, 3, 3, 3, 3, 3, 3];

const MARKS: [u8; 4] = [0, 0, 1, 1];

fn check(code: u8) -> Check {
    Check(code)
}

fn wheel(code: u16) -> Wheel {
    Wheel(code)
}

// State 2 is almost-equivalent to state 1 with factor 5, and is redirected there.
#[test]
fn a_preamble_state_is_redirected(rt: HostRuntime) -> Result<(), Fail> {
    let weights = [7u8, 1, 1, 2, 4, 5, 10, 3, 1].map(check);
    let sheet = Sheet::new(&TARGETS, &weights, &MARKS, 4, 2)?;
    let compiled = compile_by_definition(&sheet, rt.alloc())?;
    assert_eq!(rt; compiled.least.states.len(), 4);
    assert_eq!(rt; compiled.hyper.states.len(), 3);
    assert_eq!(rt; compiled.kernel_count, 1);
    assert_eq!(rt; compiled.agreement, 6);
    assert_eq!(rt;
        compiled.representatives.as_slice(),
        [0, 1, 1, 3].as_slice()
    );
    assert_eq!(rt; compiled.kept.as_slice(), [0, 1, 3].as_slice());
    let factors = [1u16, 1, 5, 1];
    for (factor, wanted) in compiled.factors.iter().zip(factors) {
        assert_eq!(rt; factor.code(), wanted);
    }
    assert!(rt; compiled.hyper.start_weight.same(Check(7)));
    let arcs = [(1usize, 2u16), (1, 5), (2, 1), (2, 2), (2, 3), (2, 1)];
    for (place, wanted) in arcs.iter().enumerate() {
        let state = compiled.hyper.states.get(place / 2).ok_or("no state")?;
        let arc = state.arcs.get(place % 2).ok_or("no arc")?;
        assert_eq!(rt; arc.target, wanted.0);
        assert_eq!(rt; arc.weight.code(), wanted.1);
    }
    Ok(())
}

// With 11 for 10 no factor will do.
#[test]
fn equal_targets_are_not_enough(rt: HostRuntime) -> Result<(), Fail> {
    let weights = [7u8, 1, 1, 2, 4, 5, 11, 3, 1].map(check);
    let sheet = Sheet::new(&TARGETS, &weights, &MARKS, 4, 2)?;
    let compiled = compile_by_definition(&sheet, rt.alloc())?;
    assert_eq!(rt; compiled.least.states.len(), 4);
    assert_eq!(rt; compiled.hyper.states.len(), 4);
    Ok(())
}

// All four states are kernel, since state 0 leads to itself, and so all are kept, though 2 and 3 are almost-equivalent to 1.
#[test]
fn kernel_states_are_kept(rt: HostRuntime) -> Result<(), Fail> {
    let targets = [0u16, 0, 1, 2, 3, 3, 3, 3, 3, 3, 3, 3, 3];
    let weights = [0u16, 0, 0, 0, 0, 0, 0, 0, 0, 0, 1, 1, 1].map(wheel);
    let sheet = Sheet::new(&targets, &weights, &[0, 1, 0, 1], 4, 3)?;
    let compiled = compile_by_definition(&sheet, rt.alloc())?;
    assert_eq!(rt; compiled.least.states.len(), 4);
    assert_eq!(rt; compiled.hyper.states.len(), 4);
    assert_eq!(rt; compiled.kernel_count, 4);
    assert_eq!(rt;
        compiled.representatives.as_slice(),
        [0, 1, 1, 1].as_slice()
    );
    let factors = [0u16, 0, 0, 1];
    for (factor, wanted) in compiled.factors.iter().zip(factors) {
        assert_eq!(rt; factor.code(), wanted);
    }
    Ok(())
}

// The off state alone.
#[test]
fn a_table_with_nothing_drawn(rt: HostRuntime) -> Result<(), Fail> {
    let sheet = Sheet::new(&[0u16], &[Check(5)], &[], 0, 1)?;
    let compiled = compile_by_definition(&sheet, rt.alloc())?;
    assert_eq!(rt; compiled.least.states.len(), 1);
    assert_eq!(rt; compiled.hyper.states.len(), 1);
    assert_eq!(rt; compiled.kernel_count, 1);
    assert_eq!(rt; compiled.agreement, 0);
    assert!(rt; compiled.hyper.start_weight.same(Check(1)));
    Ok(())
}
