use std::test::Fail;
use tables::{Book, Call, DrawnSize, Made, Source, draw, drawn_size, make_all, weigh};
use weights::{Check, Coded, Plain, Refusal, Weight};

// Seven calls of a list are taken, and three are refused: the letters after a state, an arc to a state that is not there, and a
// third state, for which there is no room.
#[test]
fn a_list_of_calls_is_drawn(rt: HostRuntime) -> Result<(), Fail> {
    let mut targets = [0u16; 5];
    let mut weights = [Check(0); 5];
    let mut marks = [0u8; 2];
    let mut made = [
        Made::new(Call::Rule { letters: 2 }),
        Made::new(Call::State { accepting: false }),
        Made::new(Call::Rule { letters: 3 }),
        Made::new(Call::Arc {
            from: 0,
            letter: 1,
            to: 1,
            weight: Check(5),
        }),
        Made::new(Call::State { accepting: true }),
        Made::new(Call::State { accepting: true }),
        Made::new(Call::Arc {
            from: 0,
            letter: 0,
            to: 0,
            weight: Check(3),
        }),
        Made::new(Call::Arc {
            from: 0,
            letter: 1,
            to: 1,
            weight: Check(5),
        }),
        Made::new(Call::Start {
            state: 1,
            weight: Check(2),
        }),
        Made::new(Call::Start {
            state: 0,
            weight: Check(7),
        }),
    ];
    assert_eq!(rt;
        drawn_size(5, 5, 2, &made),
        DrawnSize {
            letters: 2,
            states: 2
        }
    );
    let sheet = draw(&mut targets, &mut weights, &mut marks, &mut made);
    assert_eq!(rt; made[0].answer, Some(Ok(())));
    assert_eq!(rt; made[1].answer, Some(Ok(())));
    assert_eq!(rt; made[2].answer, Some(Err(Refusal::Letters)));
    assert_eq!(rt; made[3].answer, Some(Err(Refusal::NoState)));
    assert_eq!(rt; made[4].answer, Some(Ok(())));
    assert_eq!(rt; made[5].answer, Some(Err(Refusal::NoRoom)));
    assert_eq!(rt; made[6].answer, Some(Ok(())));
    assert_eq!(rt; made[7].answer, Some(Ok(())));
    assert_eq!(rt; made[8].answer, Some(Ok(())));
    assert_eq!(rt; made[9].answer, Some(Ok(())));
    assert_eq!(rt; sheet.states(), 3);
    assert_eq!(rt; sheet.letters(), 2);
    assert_eq!(rt; weigh(&sheet, &[0, 1])?.ok_or("none")?.code(), 105);
    assert!(rt; weigh(&sheet, &[1, 1])?.is_none());
    Ok(())
}

// A list may go on where another ended, on one book; a call that was made before is made anew.
#[test]
fn two_lists_are_made_on_one_book(rt: HostRuntime) -> Result<(), Fail> {
    let mut targets = [0u16; 3];
    let mut weights = [Plain; 3];
    let mut marks = [0u8; 2];
    let mut first = [
        Made::new(Call::Start {
            state: 0,
            weight: Plain,
        }),
        Made::new(Call::State { accepting: true }),
    ];
    let mut second = first;
    let mut book = Book::open(&mut targets, &mut weights, &mut marks);
    make_all(&mut book, &mut first);
    make_all(&mut book, &mut second);
    assert_eq!(rt; first[0].answer, Some(Err(Refusal::NoState)));
    assert_eq!(rt; first[1].answer, Some(Ok(())));
    assert_eq!(rt; second[0].answer, Some(Ok(())));
    assert_eq!(rt; second[1].answer, Some(Ok(())));
    let sheet = book.close();
    assert_eq!(rt; sheet.states(), 3);
    assert_eq!(rt; sheet.start(), 0);
    assert!(rt; weigh(&sheet, &[])?.is_some());
    Ok(())
}

// No calls, and no memory: one letter and no states.
#[test]
fn an_empty_list_is_drawn(rt: HostRuntime) {
    let mut made: [Made<Check>; 0] = [];
    assert_eq!(rt;
        drawn_size(0, 0, 0, &made),
        DrawnSize {
            letters: 1,
            states: 0
        }
    );
    let sheet = draw(&mut [], &mut [], &mut [], &mut made);
    assert_eq!(rt; sheet.states(), 1);
    assert_eq!(rt; sheet.letters(), 1);
    assert!(rt; sheet.start_weight().same(Check::one()));
}
