// Sources written as draft files.
use drafts::{read_draft, write_draft};
use sources::{Both, Fold, Ring};
use std::test::Fail;
use tables::{Book, Source, weigh};
use weights::{BeamWheel, Check, Coded, Refusal, Wheel};

// States come before the memory, and a refusal writes nothing.
#[test]
fn writing_refuses_in_order(rt: HostRuntime) -> Result<(), Fail> {
    let mut out = [9u8; 39];
    let largest = Ring::new(4096, 1, Check(3))?;
    assert_eq!(rt; write_draft(&largest, &mut out), Err(Refusal::StateCount));
    let large = Ring::new(4095, 1, Check(3))?;
    assert_eq!(rt; write_draft(&large, &mut out), Err(Refusal::ShortMemory));
    let ring = Ring::new(2, 1, Check(3))?;
    assert_eq!(rt; write_draft(&ring, &mut out), Err(Refusal::ShortMemory));
    assert_eq!(rt; out, [9; 39]);
    Ok(())
}

// A field a line: the head, two states, their arcs, the start; the byte after them stays.
#[test]
fn a_ring_of_2_has_40_bytes(rt: HostRuntime) -> Result<(), Fail> {
    let mut out = [9u8; 41];
    let ring = Ring::new(2, 1, Check(0))?;
    assert_eq!(rt; write_draft(&ring, &mut out), Ok(40));
    let bytes = b"\x01\0\x02\x01\x01\
\x02\0\x01\x01\
\x02\0\x01\0\
\x03\0\x07\0\0\0\0\x01\x01\0\
\x03\0\x07\0\x01\0\0\0\x01\0\
\x04\0\x04\0\0\0\x01\
\x09";
    assert_eq!(rt; out, *bytes);
    Ok(())
}

// The head has kind 3, and the arc the code 1,439.
#[test]
fn a_beam_wheel_ring_has_kind_3(rt: HostRuntime) -> Result<(), Fail> {
    let mut out = [9u8; 27];
    let ring = Ring::new(1, 1, BeamWheel(1439))?;
    assert_eq!(rt; write_draft(&ring, &mut out), Ok(26));
    let bytes = b"\x01\0\x02\x03\x01\
\x02\0\x01\x01\
\x03\0\x07\0\0\0\0\0\x05\x9f\
\x04\0\x04\0\0\0\0\
\x09";
    assert_eq!(rt; out, *bytes);
    Ok(())
}

// A pile is written and read again: the book that it is drawn in weighs words as the pile does.
#[test]
fn a_pile_is_written_and_read_again(rt: HostRuntime) -> Result<(), Fail> {
    let rings = Both::new(Ring::new(2, 1, Wheel(500))?, Ring::new(3, 1, Wheel(1))?)?;
    let pile = Fold::new(rings, &[0, 0])?;
    let mut bytes = [0u8; 156];
    assert_eq!(rt; write_draft(&pile, &mut bytes), Ok(156));
    let mut targets = [0u16; 13];
    let mut weights = [Wheel(0); 13];
    let mut marks = [0u8; 6];
    let mut book = Book::open(&mut targets, &mut weights, &mut marks);
    read_draft(&bytes, &mut book)?;
    let sheet = book.close();
    assert_eq!(rt; sheet.states(), 7);
    assert!(rt; weigh(&sheet, &[0, 1, 0])?.is_none());
    let word = [0, 1, 1, 0, 1, 0];
    assert_eq!(rt; weigh(&pile, &word)?.ok_or("none")?.code(), 126);
    assert_eq!(rt; weigh(&sheet, &word)?.ok_or("none")?.code(), 126);
    Ok(())
}
