// The texts of draft files.
use listings::hyper_listing;
use std::alloc::Global;
use std::test::Fail;
use weights::Refusal;

// What a file is listed as. The bytes after the text stay.
fn listed(alloc: Global, file: &[u8]) -> Result<Vec<u8>, Fail> {
    let mut out = vec![in alloc; b'x'; 32_768]?;
    let length = hyper_listing(file, &mut out)?;
    if out[length..].iter().any(|byte| *byte != b'x') {
        return Err("a byte after the text was written".into());
    }
    out.truncate(length);
    Ok(out)
}

// Four states over two letters with check numbers. Up to a factor, states 1 and 2 weigh all words alike but the empty one.
const CHECK_FILE: [u8; 108] = [
    // the head
    1, 0, 2, 1, 2,
    // the states
    2, 0, 1, 0, 2, 0, 1, 0, 2, 0, 1, 1, 2, 0, 1, 1,
    // the arcs of state 0
    3, 0, 7, 0, 0, 0, 0, 1, 0, 1, 3, 0, 7, 0, 0, 1, 0, 2, 0, 1,
    // the arcs of state 1
    3, 0, 7, 0, 1, 0, 0, 3, 0, 2, 3, 0, 7, 0, 1, 1, 0, 3, 0, 4,
    // the arcs of state 2
    3, 0, 7, 0, 2, 0, 0, 3, 0, 5, 3, 0, 7, 0, 2, 1, 0, 3, 0, 10,
    // the arcs of state 3
    3, 0, 7, 0, 3, 0, 0, 3, 0, 3, 3, 0, 7, 0, 3, 1, 0, 3, 0, 1,
    // the start
    4, 0, 4, 0, 0, 0, 7,
];

#[test]
fn a_check_file_is_listed(rt: HostRuntime) -> Result<(), Fail> {
    let listing = b"least 4
hyper 3
kernel 1
agree 6
start 0 7
state 0 no
state 1 no
state 2 final
arc 0 0 1 2
arc 0 1 1 5
arc 1 0 2 1
arc 1 1 2 2
arc 2 0 2 3
arc 2 1 2 1
";
    let text = listed(rt.alloc(), &CHECK_FILE)?;
    assert_eq!(rt; &text[..], &listing[..]);
    Ok(())
}

// One final state, which leads to the off state: no word but the empty one has a weight.
#[test]
fn a_plain_file_is_listed(rt: HostRuntime) -> Result<(), Fail> {
    let listing = b"least 2
hyper 1
kernel 1
agree 2
start 0 0
state 0 no
arc 0 0 0 0
";
    let text = listed(
        rt.alloc(),
        &[1, 0, 2, 0, 1, 2, 0, 1, 1, 4, 0, 4, 0, 0, 0, 0],
    )?;
    assert_eq!(rt; &text[..], &listing[..]);
    Ok(())
}

// One final state, which leads to itself.
#[test]
fn a_wheel_file_is_listed(rt: HostRuntime) -> Result<(), Fail> {
    let listing = b"least 1
hyper 1
kernel 1
agree 0
start 0 700
state 0 final
arc 0 0 0 5
";
    let text = listed(
        rt.alloc(),
        &[
            1, 0, 2, 2, 1, 2, 0, 1, 1, 3, 0, 7, 0, 0, 0, 0, 0, 0, 5, 4, 0, 4, 0, 0, 2, 188,
        ],
    )?;
    assert_eq!(rt; &text[..], &listing[..]);
    Ok(())
}

// One final state, with codes that only the beam wheel has.
#[test]
fn a_beam_wheel_file_is_listed(rt: HostRuntime) -> Result<(), Fail> {
    let listing = b"least 1
hyper 1
kernel 1
agree 0
start 0 1439
state 0 final
arc 0 0 0 720
";
    let text = listed(
        rt.alloc(),
        &[
            1, 0, 2, 3, 1, 2, 0, 1, 1, 3, 0, 7, 0, 0, 0, 0, 0, 2, 208, 4, 0, 4, 0, 0, 5, 159,
        ],
    )?;
    assert_eq!(rt; &text[..], &listing[..]);
    // the start has code 1,440
    let refused = listed(
        rt.alloc(),
        &[1, 0, 2, 3, 1, 2, 0, 1, 1, 4, 0, 4, 0, 0, 5, 160],
    )?;
    assert_eq!(rt; &refused[..], &b"refused 4 9\n"[..]);
    Ok(())
}

// Four states over two letters, with codes that both wheels have. State 2 weighs each word 360 places on from where state 1 does, if 360
// and 360 places come round to place 0.
const WHEEL_FILE: [u8; 108] = [
    // the head
    1, 0, 2, 2, 2,
    // the states
    2, 0, 1, 1, 2, 0, 1, 0, 2, 0, 1, 0, 2, 0, 1, 1,
    // the arcs of state 0
    3, 0, 7, 0, 0, 0, 0, 1, 0, 0, 3, 0, 7, 0, 0, 1, 0, 2, 0, 0,
    // the arcs of state 1
    3, 0, 7, 0, 1, 0, 0, 3, 0, 0, 3, 0, 7, 0, 1, 1, 0, 3, 1, 104,
    // the arcs of state 2
    3, 0, 7, 0, 2, 0, 0, 3, 1, 104, 3, 0, 7, 0, 2, 1, 0, 3, 0, 0,
    // the arcs of state 3
    3, 0, 7, 0, 3, 0, 0, 3, 0, 0, 3, 0, 7, 0, 3, 1, 0, 3, 0, 1,
    // the start
    4, 0, 4, 0, 0, 0, 0,
];

#[test]
fn a_draft_has_three_states_on_the_wheel(rt: HostRuntime) -> Result<(), Fail> {
    let listing = b"least 3
hyper 3
kernel 1
agree 4
start 0 0
state 0 final
state 1 no
state 2 final
arc 0 0 1 0
arc 0 1 1 360
arc 1 0 2 0
arc 1 1 2 360
arc 2 0 2 0
arc 2 1 2 1
";
    let text = listed(rt.alloc(), &WHEEL_FILE)?;
    assert_eq!(rt; &text[..], &listing[..]);
    Ok(())
}

#[test]
fn the_same_draft_has_four_on_the_beam_wheel(rt: HostRuntime) -> Result<(), Fail> {
    let listing = b"least 4
hyper 4
kernel 1
agree 6
start 0 0
state 0 final
state 1 no
state 2 no
state 3 final
arc 0 0 1 0
arc 0 1 2 360
arc 1 0 3 0
arc 1 1 3 360
arc 2 0 3 0
arc 2 1 3 1080
arc 3 0 3 0
arc 3 1 3 1
";
    let mut file = WHEEL_FILE;
    file[3] = 3;
    let text = listed(rt.alloc(), &file)?;
    assert_eq!(rt; &text[..], &listing[..]);
    Ok(())
}

#[test]
fn a_file_at_fault_is_refused(rt: HostRuntime) -> Result<(), Fail> {
    assert_eq!(rt; &listed(rt.alloc(), b"")?[..], &b"refused 7 0\n"[..]);
    // no kind has the number 4, so plain is read
    assert_eq!(rt;
        &listed(rt.alloc(), &[1, 0, 2, 4, 1])?[..],
        &b"refused 7 0\n"[..]
    );
    // the start lacks a byte
    assert_eq!(rt;
        &listed(rt.alloc(), &CHECK_FILE[..107])?[..],
        &b"refused 7 101\n"[..]
    );
    // a plain weight has no code but 0
    assert_eq!(rt;
        &listed(
            rt.alloc(),
            &[1, 0, 2, 0, 1, 2, 0, 1, 1, 4, 0, 4, 0, 0, 0, 1]
        )?[..],
        &b"refused 4 9\n"[..]
    );
    // there is no state 1
    assert_eq!(rt;
        &listed(
            rt.alloc(),
            &[1, 0, 2, 0, 1, 2, 0, 1, 1, 4, 0, 4, 0, 1, 0, 0]
        )?[..],
        &b"refused 2 9\n"[..]
    );
    Ok(())
}

// A check draft of one state whose arc is drawn again is refused at the second; the start may be set again.
#[test]
fn an_arc_drawn_twice_is_refused(rt: HostRuntime) -> Result<(), Fail> {
    let twice = listed(
        rt.alloc(),
        &[
            1, 0, 2, 1, 1, 2, 0, 1, 1, 3, 0, 7, 0, 0, 0, 0, 0, 0, 5, 3, 0, 7, 0, 0, 0, 0, 0, 0, 5,
            4, 0, 4, 0, 0, 0, 7,
        ],
    )?;
    assert_eq!(rt; &twice[..], &b"refused 10 19\n"[..]);
    let once = listed(
        rt.alloc(),
        &[
            1, 0, 2, 1, 1, 2, 0, 1, 1, 3, 0, 7, 0, 0, 0, 0, 0, 0, 5, 4, 0, 4, 0, 0, 0, 3, 4, 0, 4,
            0, 0, 0, 7,
        ],
    )?;
    let listing = b"least 1
hyper 1
kernel 1
agree 0
start 0 7
state 0 final
arc 0 0 0 5
";
    assert_eq!(rt; &once[..], &listing[..]);
    Ok(())
}

#[test]
fn a_long_file_is_refused(rt: HostRuntime) -> Result<(), Fail> {
    let file = vec![in rt.alloc(); 0; 16_385]?;
    assert_eq!(rt;
        &listed(rt.alloc(), &file[..16_384])?[..],
        &b"refused 7 0\n"[..]
    );
    assert_eq!(rt; &listed(rt.alloc(), &file)?[..], &b"refused 6 16384\n"[..]);
    Ok(())
}

#[test]
fn a_short_memory_is_refused(rt: HostRuntime) -> Result<(), Fail> {
    let mut out = vec![in rt.alloc(); b'x'; 32_767]?;
    assert_eq!(rt;
        hyper_listing(&CHECK_FILE, &mut out).err(),
        Some(Refusal::ShortMemory)
    );
    assert!(rt; out.iter().all(|byte| *byte == b'x'));
    Ok(())
}
