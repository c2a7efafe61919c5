// An arc is drawn once: of each state and letter the first arc that is taken stays.
use drafts::{Fault, Layer, read_draft};
use std::test::Fail;
use tables::{Book, Call, Made, Source, draw, weigh};
use weights::{Check, Coded, Refusal, Weight, Wheel};

// The second arc of a state and letter is refused, also where it equals the first; another letter and another state are free.
#[test]
fn the_same_arc_is_refused_with_10(rt: HostRuntime) -> Result<(), Fail> {
    let mut targets = [0u16; 5];
    let mut weights = [Check(0); 5];
    let mut marks = [0u8; 2];
    let mut book = Book::open(&mut targets, &mut weights, &mut marks);
    book.rule(2)?;
    book.state(false)?;
    book.state(true)?;
    assert_eq!(rt; book.arc(0, 1, 1, Check(5)), Ok(()));
    assert_eq!(rt; book.arc(0, 1, 1, Check(5)), Err(Refusal::SecondArc));
    assert_eq!(rt; book.arc(0, 0, 1, Check(5)), Ok(()));
    assert_eq!(rt; book.arc(1, 1, 1, Check(5)), Ok(()));
    assert_eq!(rt; book.arc(1, 0, 1, Check(5)), Ok(()));
    assert_eq!(rt; book.arc(0, 0, 1, Check(5)), Err(Refusal::SecondArc));
    assert_eq!(rt; Refusal::SecondArc.number(), 10);
    Ok(())
}

// Target and weight of the first stay, also where the second has another target, another weight, or both.
#[test]
fn the_first_arc_stays(rt: HostRuntime) -> Result<(), Fail> {
    let mut targets = [9u16; 3];
    let mut weights = [Check(9); 3];
    let mut marks = [9u8; 2];
    let mut book = Book::open(&mut targets, &mut weights, &mut marks);
    book.state(false)?;
    book.state(true)?;
    book.arc(0, 0, 1, Check(5))?;
    book.start(0, Check(7))?;
    assert_eq!(rt; book.arc(0, 0, 0, Check(5)), Err(Refusal::SecondArc));
    assert_eq!(rt; book.arc(0, 0, 1, Check(6)), Err(Refusal::SecondArc));
    assert_eq!(rt; book.arc(0, 0, 0, Check(6)), Err(Refusal::SecondArc));
    let sheet = book.close();
    assert_eq!(rt; weigh(&sheet, &[0])?.ok_or("none")?.code(), 35);
    assert!(rt; weigh(&sheet, &[])?.is_none());
    assert_eq!(rt; targets, [0, 1, 65535]);
    assert_eq!(rt; weights.map(|weight| weight.0), [7, 5, 9]);
    assert_eq!(rt; marks, [0, 1]);
    Ok(())
}

// The state that an arc leaves, then its letter, then its target, and last that it is drawn.
#[test]
fn arc_refuses_a_drawn_arc_last(rt: HostRuntime) -> Result<(), Fail> {
    // there are more places than states, and none of them holds 65,535
    let mut targets = [0u16; 6];
    let mut weights = [Check(0); 6];
    let mut marks = [0u8; 1];
    let mut book = Book::open(&mut targets, &mut weights, &mut marks);
    book.rule(2)?;
    book.state(true)?;
    book.arc(0, 0, 0, Check(1))?;
    book.arc(0, 1, 0, Check(1))?;
    assert_eq!(rt; book.arc(1, 2, 0, Check(1)), Err(Refusal::NoState));
    assert_eq!(rt; book.arc(0, 2, 1, Check(1)), Err(Refusal::NoLetter));
    assert_eq!(rt; book.arc(0, 1, 1, Check(1)), Err(Refusal::NoState));
    assert_eq!(rt; book.arc(0, 1, 0, Check(1)), Err(Refusal::SecondArc));
    Ok(())
}

// After a refused arc its state and letter are as free as before.
#[test]
fn an_arc_may_be_drawn_after_a_refused_one(rt: HostRuntime) -> Result<(), Fail> {
    let mut targets = [0u16; 3];
    let mut weights = [Wheel(0); 3];
    let mut marks = [0u8; 2];
    let mut book = Book::open(&mut targets, &mut weights, &mut marks);
    assert_eq!(rt; book.arc(0, 0, 0, Wheel(3)), Err(Refusal::NoState));
    book.state(true)?;
    assert_eq!(rt; book.arc(0, 0, 1, Wheel(3)), Err(Refusal::NoState));
    assert_eq!(rt; book.arc(0, 0, 65535, Wheel(3)), Err(Refusal::NoState));
    book.state(true)?;
    assert_eq!(rt; book.arc(0, 0, 1, Wheel(4)), Ok(()));
    assert_eq!(rt; book.arc(0, 0, 1, Wheel(4)), Err(Refusal::SecondArc));
    let sheet = book.close();
    assert_eq!(rt; sheet.target(0, 0), Some(1));
    assert!(rt; sheet.weight(0, 0).ok_or("none")?.same(Wheel(4)));
    Ok(())
}

// A new state has no arcs, whatever its places held before: arcs to state 0, nothing, or arcs to the new state.
#[test]
fn what_lay_in_a_memory_is_no_arc(rt: HostRuntime) -> Result<(), Fail> {
    for before in [0u16, 65535, 1] {
        let mut targets = [before; 5];
        let mut weights = [Check(9); 5];
        let mut marks = [255u8; 2];
        let mut book = Book::open(&mut targets, &mut weights, &mut marks);
        book.rule(2)?;
        book.state(false)?;
        assert_eq!(rt; book.arc(0, 1, 0, Check(2)), Ok(()), "{before}");
        book.state(true)?;
        assert_eq!(rt; book.arc(0, 0, 1, Check(3)), Ok(()), "{before}");
        assert_eq!(rt; book.arc(1, 0, 0, Check(4)), Ok(()), "{before}");
        assert_eq!(rt; book.arc(1, 1, 1, Check(5)), Ok(()), "{before}");
        for (from, letter) in [(0, 0), (0, 1), (1, 0), (1, 1)] {
            assert_eq!(rt;
                book.arc(from, letter, 0, Check(6)),
                Err(Refusal::SecondArc),
                "{before}"
            );
        }
        assert_eq!(rt; targets, [65535, 1, 0, 0, 1], "{before}");
        assert_eq!(rt; weights.map(|weight| weight.0), [9, 3, 2, 4, 5], "{before}");
    }
    Ok(())
}

// A start is set in place of an earlier one, also of one that equals it, and of an arc there is no second one.
#[test]
fn a_start_is_set_twice(rt: HostRuntime) -> Result<(), Fail> {
    let mut targets = [0u16; 3];
    let mut weights = [Check(0); 3];
    let mut marks = [0u8; 2];
    let mut book = Book::open(&mut targets, &mut weights, &mut marks);
    book.state(false)?;
    book.state(true)?;
    assert_eq!(rt; book.start(0, Check(2)), Ok(()));
    assert_eq!(rt; book.start(0, Check(2)), Ok(()));
    assert_eq!(rt; book.arc(1, 0, 1, Check(5)), Ok(()));
    assert_eq!(rt; book.start(1, Check(7)), Ok(()));
    assert_eq!(rt; book.arc(1, 0, 1, Check(5)), Err(Refusal::SecondArc));
    let sheet = book.close();
    assert_eq!(rt; sheet.start(), 1);
    assert_eq!(rt; weigh(&sheet, &[])?.ok_or("none")?.code(), 7);
    assert_eq!(rt; weigh(&sheet, &[0])?.ok_or("none")?.code(), 35);
    Ok(())
}

fn arc(from: u16, letter: u8, to: u16, weight: u8) -> Call<Check> {
    Call::Arc {
        from,
        letter,
        to,
        weight: Check(weight),
    }
}

// All answers to a list. Its second arc has no target yet, and so counts for nothing.
#[test]
fn a_list_draws_each_arc_once(rt: HostRuntime) -> Result<(), Fail> {
    let mut targets = [0u16; 3];
    let mut weights = [Check(0); 3];
    let mut marks = [0u8; 2];
    let mut made = [
        arc(0, 0, 0, 2),
        Call::State { accepting: false },
        arc(0, 0, 1, 3),
        Call::State { accepting: true },
        arc(0, 0, 1, 5),
        arc(0, 0, 2, 6),
        arc(0, 0, 0, 6),
        arc(1, 0, 1, 2),
        arc(0, 1, 1, 2),
        arc(1, 0, 1, 2),
        Call::Start {
            state: 1,
            weight: Check(3),
        },
        Call::Start {
            state: 0,
            weight: Check(7),
        },
        arc(0, 0, 1, 5),
    ]
    .map(Made::new);
    let sheet = draw(&mut targets, &mut weights, &mut marks, &mut made);
    assert_eq!(rt; weigh(&sheet, &[0])?.ok_or("none")?.code(), 35);
    assert_eq!(rt; weigh(&sheet, &[0, 0])?.ok_or("none")?.code(), 70);
    assert_eq!(rt;
        made.map(|one| one.answer),
        [
            Some(Err(Refusal::NoState)),
            Some(Ok(())),
            Some(Err(Refusal::NoState)),
            Some(Ok(())),
            Some(Ok(())),
            Some(Err(Refusal::NoState)),
            Some(Err(Refusal::SecondArc)),
            Some(Ok(())),
            Some(Err(Refusal::NoLetter)),
            Some(Err(Refusal::SecondArc)),
            Some(Ok(())),
            Some(Ok(())),
            Some(Err(Refusal::SecondArc)),
        ]
    );
    Ok(())
}

// One letter with check numbers: a final state that leads to itself, by an arc that stands there twice, and the start.
const LOOP_TWICE: [u8; 36] = [
    // the head and the state
    1, 0, 2, 1, 1, 2, 0, 1, 1,
    // the arc
    3, 0, 7, 0, 0, 0, 0, 0, 0, 5,
    // the arc again, from offset 19 on: its target is at 26, its code at 27 and 28
    3, 0, 7, 0, 0, 0, 0, 0, 0, 5,
    // the start
    4, 0, 4, 0, 0, 0, 7,
];

// The file is refused at the field that doubles the arc, or draws it with another weight. The fields before stay, and the start after it is
// not made.
#[test]
fn a_file_with_an_arc_drawn_twice_is_refused(rt: HostRuntime) -> Result<(), Fail> {
    for code in [5u8, 6] {
        let mut file = LOOP_TWICE;
        file[28] = code;
        let mut targets = [9u16; 2];
        let mut weights = [Check(9); 2];
        let mut marks = [9u8; 1];
        let mut book = Book::open(&mut targets, &mut weights, &mut marks);
        assert_eq!(rt;
            read_draft(&file, &mut book),
            Err(Fault {
                layer: Layer::Book,
                refusal: Refusal::SecondArc,
                offset: 19,
            })
        );
        let sheet = book.close();
        assert_eq!(rt; sheet.states(), 2);
        assert_eq!(rt; sheet.is_final(0), Some(true));
        assert_eq!(rt; sheet.target(0, 0), Some(0));
        assert_eq!(rt; sheet.weight(0, 0).ok_or("none")?.code(), 5);
        assert_eq!(rt; sheet.start(), 1);
        assert_eq!(rt; targets, [65535, 0]);
        assert_eq!(rt; weights.map(|weight| weight.0), [9, 5]);
    }
    Ok(())
}

// A code that is not of the kind and a missing target come before.
#[test]
fn a_drawn_arc_is_refused_last_in_a_file(rt: HostRuntime) {
    for (to, high, refused) in [
        (0u8, 2u8, Refusal::NoCode),
        (1, 0, Refusal::NoState),
        (0, 0, Refusal::SecondArc),
    ] {
        let mut file = LOOP_TWICE;
        file[26] = to;
        file[27] = high;
        let mut targets = [9u16; 2];
        let mut weights = [Check(9); 2];
        let mut marks = [9u8; 1];
        let mut book = Book::open(&mut targets, &mut weights, &mut marks);
        let fault = read_draft(&file, &mut book).err();
        assert_eq!(rt; fault.map(|fault| fault.refusal), Some(refused));
        assert_eq!(rt; fault.map(|fault| fault.offset), Some(19));
    }
}
