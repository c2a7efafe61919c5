use std::test::Fail;
use tables::{Book, Source, weigh};
use weights::{Check, Coded, Plain, Refusal, Weight};

// Two states over two letters: word 0 1 leads to the final one.
#[test]
fn a_drawn_table_weighs_words(rt: HostRuntime) -> Result<(), Fail> {
    let mut targets = [0u16; 5];
    let mut weights = [Check(0); 5];
    let mut marks = [0u8; 2];
    let mut book = Book::open(&mut targets, &mut weights, &mut marks);
    book.rule(2)?;
    book.state(false)?;
    book.state(true)?;
    book.arc(0, 0, 0, Check(3))?;
    book.arc(0, 1, 1, Check(5))?;
    book.start(0, Check(7))?;
    let sheet = book.close();
    assert_eq!(rt; sheet.states(), 3);
    assert_eq!(rt; weigh(&sheet, &[0, 1])?.ok_or("none")?.code(), 105);
    assert!(rt; weigh(&sheet, &[0])?.is_none());
    assert!(rt; weigh(&sheet, &[1, 0])?.is_none());
    assert_eq!(rt;
        weigh(&sheet, &[1, 1, 2, 9]).err(),
        Some(Refusal::NoLetterAt(2))
    );
    Ok(())
}

#[test]
fn rule_refuses_with_1(rt: HostRuntime) -> Result<(), Fail> {
    let mut targets = [0u16; 4];
    let mut weights = [Plain; 4];
    let mut marks = [0u8; 1];
    let mut book = Book::open(&mut targets, &mut weights, &mut marks);
    assert_eq!(rt; book.rule(0), Err(Refusal::Letters));
    assert_eq!(rt; book.rule(65), Err(Refusal::Letters));
    assert_eq!(rt; book.rule(64), Ok(()));
    assert_eq!(rt; book.rule(3), Ok(()));
    book.state(true)?;
    assert_eq!(rt; book.rule(2), Err(Refusal::Letters));
    assert_eq!(rt; book.close().letters(), 3);
    Ok(())
}

#[test]
fn arc_and_start_refuse_in_order(rt: HostRuntime) -> Result<(), Fail> {
    let mut targets = [0u16; 3];
    let mut weights = [Plain; 3];
    let mut marks = [0u8; 1];
    let mut book = Book::open(&mut targets, &mut weights, &mut marks);
    book.rule(2)?;
    book.state(true)?;
    assert_eq!(rt; book.arc(1, 2, 1, Plain), Err(Refusal::NoState));
    assert_eq!(rt; book.arc(0, 2, 1, Plain), Err(Refusal::NoLetter));
    assert_eq!(rt; book.arc(0, 1, 1, Plain), Err(Refusal::NoState));
    assert_eq!(rt; book.arc(0, 1, 0, Plain), Ok(()));
    assert_eq!(rt; book.start(1, Plain), Err(Refusal::NoState));
    assert_eq!(rt; book.start(0, Plain), Ok(()));
    assert_eq!(rt; Refusal::NoState.number(), 2);
    assert_eq!(rt; Refusal::NoLetter.number(), 3);
    Ok(())
}

// Two letters and one state over these memories.
fn one_state(targets: &mut [u16], weights: &mut [Check], marks: &mut [u8]) -> Result<(), Refusal> {
    let mut book = Book::open(targets, weights, marks);
    book.rule(2)?;
    book.state(true)
}

// A memory too short for one more state, each in turn.
#[test]
fn state_refuses_with_5(rt: HostRuntime) {
    let mut few = [0u16; 2];
    let mut enough = [0u16; 3];
    assert_eq!(rt;
        one_state(&mut enough, &mut [Check(1); 3], &mut [0; 1]),
        Ok(())
    );
    assert_eq!(rt;
        one_state(&mut few, &mut [Check(1); 3], &mut [0; 1]),
        Err(Refusal::NoRoom)
    );
    assert_eq!(rt;
        one_state(&mut enough, &mut [Check(1); 2], &mut [0; 1]),
        Err(Refusal::NoRoom)
    );
    assert_eq!(rt;
        one_state(&mut enough, &mut [Check(1); 3], &mut []),
        Err(Refusal::NoRoom)
    );
    assert_eq!(rt; Refusal::NoRoom.number(), 5);
}

#[test]
fn a_book_has_at_most_4095_states(rt: HostRuntime) -> Result<(), Fail> {
    let mut targets = vec![in rt.alloc(); 0u16; 4097]?;
    let mut weights = vec![in rt.alloc(); Check(1); 4097]?;
    let mut marks = vec![in rt.alloc(); 0u8; 4096]?;
    let mut book = Book::open(&mut targets, &mut weights, &mut marks);
    for _ in 0..4095 {
        book.state(true)?;
    }
    assert_eq!(rt; book.state(true), Err(Refusal::NoRoom));
    assert_eq!(rt; book.close().states(), 4096);
    Ok(())
}

// No states: the table is the off state alone, also where there is no place 0.
#[test]
fn an_empty_book_closes(rt: HostRuntime) -> Result<(), Fail> {
    let mut targets = [0u16; 1];
    let mut weights = [Check(5); 1];
    let mut marks = [1u8; 1];
    let sheet = Book::open(&mut targets, &mut weights, &mut marks).close();
    assert_eq!(rt; sheet.states(), 1);
    assert_eq!(rt; sheet.start(), 0);
    assert!(rt; sheet.start_weight().same(Check::one()));
    assert!(rt; weigh(&sheet, &[0, 0])?.is_none());
    let sheet = Book::open(&mut targets[0..0], &mut weights[0..0], &mut marks[0..0]).close();
    assert_eq!(rt; sheet.states(), 1);
    assert_eq!(rt; sheet.start(), 0);
    assert!(rt; weigh(&sheet, &[])?.is_none());
    Ok(())
}

// A refused call writes nothing: the arc that was drawn stays.
#[test]
fn a_refused_call_writes_nothing(rt: HostRuntime) -> Result<(), Fail> {
    let mut targets = [0u16; 2];
    let mut weights = [Check(1); 2];
    let mut marks = [0u8; 1];
    let mut book = Book::open(&mut targets, &mut weights, &mut marks);
    book.state(true)?;
    book.arc(0, 0, 0, Check(9))?;
    book.start(0, Check(2))?;
    assert_eq!(rt; book.arc(0, 0, 1, Check(4)), Err(Refusal::NoState));
    assert_eq!(rt; book.start(1, Check(4)), Err(Refusal::NoState));
    assert_eq!(rt; book.state(false), Err(Refusal::NoRoom));
    let sheet = book.close();
    assert_eq!(rt; weigh(&sheet, &[0, 0])?.ok_or("none")?.code(), 162);
    Ok(())
}
