// Compiling sources of each sort, and what the tables, lists and counts come to.
use minimize::{
    Report, StateMemory, TableMemory, TableView, WorkMemory, compile, draw_and_compile,
};
use sources::{Both, Fold, Ring};
use std::test::Fail;
use tables::{Book, Call, Made, Sheet, Source, weigh};
use weights::{Check, Coded, Plain, Refusal, Weight, Wheel};

// What compiling leaves.
#[derive(Drop)]
pub(crate) struct Left<W> {
    pub(crate) report: Report,
    pub(crate) targets: Vec<u16>,
    pub(crate) weights: Vec<W>,
    pub(crate) marks: Vec<u8>,
    pub(crate) hyper_targets: Vec<u16>,
    pub(crate) hyper_weights: Vec<W>,
    pub(crate) hyper_marks: Vec<u8>,
    pub(crate) representatives: Vec<u16>,
    pub(crate) factors: Vec<W>,
}

impl<W: Weight> Left<W> {
    // The hyper table, of so many letters, read where it lies.
    pub(crate) fn hyper_table(&self, letters: u8) -> TableView<'_, W> {
        TableView::new(
            &self.hyper_targets,
            &self.hyper_weights,
            &self.hyper_marks,
            self.report.hyper,
            letters,
        )
    }
}

// Compiles a source in memories of just the size that is needed.
pub(crate) fn compile_exactly<W: Weight, S: Source<W>>(
    rt: &HostRuntime,
    source: &S,
) -> Result<Left<W>, Fail> {
    let states = usize::from(source.states());
    let places = 1 + states * usize::from(source.letters());
    let mut targets = vec![in rt.alloc(); 0u16; places]?;
    let mut weights = vec![in rt.alloc(); W::one(); places]?;
    let mut marks = vec![in rt.alloc(); 0u8; states]?;
    let mut hyper_targets = vec![in rt.alloc(); 0u16; places]?;
    let mut hyper_weights = vec![in rt.alloc(); W::one(); places]?;
    let mut hyper_marks = vec![in rt.alloc(); 0u8; states]?;
    let mut representatives = vec![in rt.alloc(); 0u16; states]?;
    let mut factors = vec![in rt.alloc(); W::one(); states]?;
    let mut numbers = vec![in rt.alloc(); 0u16; 24 * states]?;
    let mut elements = vec![in rt.alloc(); W::one(); 6 * states]?;
    let report = compile(
        source,
        TableMemory {
            targets: &mut targets,
            weights: &mut weights,
            marks: &mut marks,
        },
        TableMemory {
            targets: &mut hyper_targets,
            weights: &mut hyper_weights,
            marks: &mut hyper_marks,
        },
        StateMemory {
            representatives: &mut representatives,
            factors: &mut factors,
        },
        WorkMemory {
            numbers: &mut numbers,
            elements: &mut elements,
        },
    )?;
    Ok(Left {
        report,
        targets,
        weights,
        marks,
        hyper_targets,
        hyper_weights,
        hyper_marks,
        representatives,
        factors,
    })
}

// A report of a least table, a hyper table and kernel states, with the agreement length that goes with them.
pub(crate) fn report(least: u16, hyper: u16, kernel: u16) -> Report {
    Report {
        least,
        hyper,
        kernel,
        agreement: least.wrapping_mul(2).wrapping_sub(2),
    }
}

// The codes of elements.
pub(crate) fn codes<W: Coded>(rt: &HostRuntime, elements: &[W]) -> Result<Vec<u16>, Fail> {
    let mut codes = Vec::new(rt.alloc());
    for element in elements {
        codes.push(element.code())?;
    }
    Ok(codes)
}

// The memories of four states over two letters: the fork. Where the last arc of state 2 weighs `last` = 10, state 2 weighs each word but
// the empty one as 5/2 times what state 1 does; where it weighs 11, no factor does that.
pub(crate) const FORK_TARGETS: [u16; 9] = [0, 1, 2, 3, 3, 3, 3, 3, 3];

pub(crate) const FORK_MARKS: [u8; 4] = [0, 0, 1, 1];

pub(crate) fn fork_weights(last: u8) -> [Check; 9] {
    [7, 1, 1, 2, 4, 5, last, 3, 1].map(Check)
}

// A new book, closed: the off state is all there is.
#[test]
fn a_new_book(rt: HostRuntime) -> Result<(), Fail> {
    let mut targets = [0u16; 1];
    let mut weights = [Plain; 1];
    let mut marks = [0u8; 0];
    let sheet = Book::open(&mut targets, &mut weights, &mut marks).close();
    let made = compile_exactly(&rt, &sheet)?;
    assert_eq!(rt; made.report, report(1, 1, 1));
    assert_eq!(rt; made.report.agreement, 0);
    Ok(())
}

// One final state whose arc leads off: the hyper table has the off state alone.
#[test]
fn one_final_state(rt: HostRuntime) -> Result<(), Fail> {
    let sheet = Sheet::new(&[0u16, 1], &[Check(5), Check(9)], &[1u8], 1, 1)?;
    let made = compile_exactly(&rt, &sheet)?;
    assert_eq!(rt; made.report, report(2, 1, 1));
    assert_eq!(rt; made.report.agreement, 2);
    assert!(rt; made.hyper_marks.starts_with(&[2]));
    assert!(rt; codes(&rt, &made.hyper_weights)?.starts_with(&[5]));
    Ok(())
}

// The fork merges states 1 and 2, with a factor on the arc to state 2.
#[test]
fn a_fork_that_merges(rt: HostRuntime) -> Result<(), Fail> {
    let weights = fork_weights(10);
    let sheet = Sheet::new(&FORK_TARGETS, &weights, &FORK_MARKS, 4, 2)?;
    let made = compile_exactly(&rt, &sheet)?;
    assert_eq!(rt; made.report, report(4, 3, 1));
    assert!(rt; made.representatives.starts_with(&[0, 1, 1, 3]));
    assert!(rt; codes(&rt, &made.factors)?.starts_with(&[1, 1, 5, 1]));
    assert!(rt; made.marks.starts_with(&[4, 4, 5, 7]));
    assert!(rt; made.hyper_marks.starts_with(&[4, 4, 7]));
    assert!(rt; made.hyper_targets.starts_with(&[0, 1, 1, 2, 2, 2, 2]));
    assert!(rt; codes(&rt, &made.hyper_weights)?.starts_with(&[7, 2, 5, 1, 2, 3, 1]));
    // The word 0 1 has length 2, and weighs the same in both; the word 1 is shorter, and does not.
    let hyper = Sheet::new(
        &made.hyper_targets,
        &made.hyper_weights,
        &made.hyper_marks,
        made.report.hyper,
        2,
    )?;
    assert_eq!(rt; weigh(&sheet, &[0, 1])?.ok_or("none")?.code(), 28);
    assert_eq!(rt; weigh(&hyper, &[0, 1])?.ok_or("none")?.code(), 28);
    assert_eq!(rt; weigh(&sheet, &[1])?.ok_or("none")?.code(), 7);
    assert!(rt; weigh(&hyper, &[1])?.is_none());
    Ok(())
}

// With another weight on one arc of state 2 nothing merges, though all targets are the same.
#[test]
fn a_fork_that_does_not_merge(rt: HostRuntime) -> Result<(), Fail> {
    let weights = fork_weights(11);
    let sheet = Sheet::new(&FORK_TARGETS, &weights, &FORK_MARKS, 4, 2)?;
    assert_eq!(rt; compile_exactly(&rt, &sheet)?.report, report(4, 4, 1));
    Ok(())
}

// Kernel states of one class are all kept.
#[test]
fn kernel_states_are_kept(rt: HostRuntime) -> Result<(), Fail> {
    let targets = [0u16, 0, 1, 2, 3, 3, 3, 3, 3, 3, 3, 3, 3];
    let mut weights = [Wheel(0); 13];
    weights[10] = Wheel(1);
    weights[11] = Wheel(1);
    weights[12] = Wheel(1);
    let sheet = Sheet::new(&targets, &weights, &[0u8, 1, 0, 1], 4, 3)?;
    let made = compile_exactly(&rt, &sheet)?;
    assert_eq!(rt; made.report, report(4, 4, 4));
    assert_eq!(rt; made.report.agreement, 6);
    Ok(())
}

// A ring's weights gather on the arc from its start.
#[test]
fn a_ring_is_compiled(rt: HostRuntime) -> Result<(), Fail> {
    let ring = Ring::new(3, 1, Wheel(1))?;
    let made = compile_exactly(&rt, &ring)?;
    assert_eq!(rt; made.report, report(3, 3, 3));
    assert!(rt; codes(&rt, &made.weights)?.starts_with(&[0, 3, 0, 0]));
    Ok(())
}

// Rings of 2 and 3 side by side: six states round, and twelve in all on the first arc.
#[test]
fn a_pile_is_compiled(rt: HostRuntime) -> Result<(), Fail> {
    let both = Both::new(Ring::new(2, 1, Wheel(1))?, Ring::new(3, 1, Wheel(1))?)?;
    let made = compile_exactly(&rt, &both)?;
    assert_eq!(rt; made.report, report(6, 6, 6));
    assert_eq!(rt; made.report.agreement, 10);
    assert!(rt; made.targets.starts_with(&[0, 1, 2, 3, 4, 5, 0]));
    assert!(rt; codes(&rt, &made.weights)?.starts_with(&[0, 12, 0, 0, 0, 0, 0]));
    // Two letters that act as one.
    let fold = Fold::new(both, &[0, 0])?;
    let made = compile_exactly(&rt, &fold)?;
    assert_eq!(rt; made.report, report(6, 6, 6));
    assert!(rt;
        made.targets
            .starts_with(&[0, 1, 1, 2, 2, 3, 3, 4, 4, 5, 5, 0, 0])
    );
    Ok(())
}

// The largest check number times itself is one, and the last place of a wheel and one more is the first.
#[test]
fn numbers_go_round(rt: HostRuntime) -> Result<(), Fail> {
    let last = Check::from_code(256)?;
    assert_eq!(rt; last.times(last).code(), 1);
    let last = Wheel::from_code(719)?;
    assert_eq!(rt; last.times(Wheel::from_code(1)?).code(), 0);
    Ok(())
}

// Each memory in turn is a place too short: nothing is written.
#[test]
fn short_memories_are_refused_with_6(rt: HostRuntime) -> Result<(), Fail> {
    let weights = fork_weights(10);
    let sheet = Sheet::new(&FORK_TARGETS, &weights, &FORK_MARKS, 4, 2)?;
    let mut least_targets = [9u16; 11];
    let mut least_weights = [Check(9); 11];
    let mut least_marks = [9u8; 5];
    let mut hyper_targets = [9u16; 11];
    let mut hyper_weights = [Check(9); 11];
    let mut hyper_marks = [9u8; 5];
    let mut representatives = [9u16; 5];
    let mut factors = [Check(9); 5];
    let mut numbers = [9u16; 120];
    let mut elements = [Check(9); 30];
    for short in 0..10u8 {
        let refused = compile(
            &sheet,
            TableMemory {
                targets: &mut least_targets[usize::from(short == 0)..],
                weights: &mut least_weights[usize::from(short == 1)..],
                marks: &mut least_marks[usize::from(short == 2)..],
            },
            TableMemory {
                targets: &mut hyper_targets[usize::from(short == 3)..],
                weights: &mut hyper_weights[usize::from(short == 4)..],
                marks: &mut hyper_marks[usize::from(short == 5)..],
            },
            StateMemory {
                representatives: &mut representatives[usize::from(short == 6)..],
                factors: &mut factors[usize::from(short == 7)..],
            },
            WorkMemory {
                numbers: &mut numbers[usize::from(short == 8)..],
                elements: &mut elements[usize::from(short == 9)..],
            },
        );
        assert_eq!(rt; refused, Err(Refusal::ShortMemory), "{short}");
    }
    assert!(rt; least_targets.iter().all(|&number| number == 9));
    assert!(rt; least_weights.iter().all(|weight| weight.0 == 9));
    assert!(rt; least_marks.iter().all(|&mark| mark == 9));
    assert!(rt; hyper_targets.iter().all(|&number| number == 9));
    assert!(rt; hyper_weights.iter().all(|weight| weight.0 == 9));
    assert!(rt; hyper_marks.iter().all(|&mark| mark == 9));
    assert!(rt; representatives.iter().all(|&number| number == 9));
    assert!(rt; factors.iter().all(|factor| factor.0 == 9));
    assert!(rt; numbers.iter().all(|&number| number == 9));
    assert!(rt; elements.iter().all(|element| element.0 == 9));
    Ok(())
}

// Two states, of which the first leads to the second and that to itself. An arc that has no target is refused, and so is a second arc of one
// state and letter. The book's memory has just room for the two states. Only the empty word tells them apart, so the first is redirected. A
// memory that is too short to compile in is refused before a call is made.
#[test]
fn calls_are_drawn_and_compiled(rt: HostRuntime) -> Result<(), Fail> {
    let mut made = [
        Call::State { accepting: false },
        Call::State { accepting: true },
        Call::State { accepting: true },
        Call::Arc {
            from: 0,
            letter: 0,
            to: 1,
            weight: Check(3),
        },
        Call::Arc {
            from: 1,
            letter: 0,
            to: 2,
            weight: Check(5),
        },
        Call::Arc {
            from: 1,
            letter: 0,
            to: 1,
            weight: Check(5),
        },
        Call::Arc {
            from: 1,
            letter: 0,
            to: 0,
            weight: Check(9),
        },
        Call::Start {
            state: 0,
            weight: Check(7),
        },
    ]
    .map(Made::new);
    let mut book_targets = [9u16; 3];
    let mut book_weights = [Check(9); 3];
    let mut book_marks = [9u8; 2];
    let mut least_targets = [9u16; 4];
    let mut least_weights = [Check(9); 4];
    let mut least_marks = [9u8; 3];
    let mut hyper_targets = [9u16; 4];
    let mut hyper_weights = [Check(9); 4];
    let mut hyper_marks = [9u8; 3];
    let mut representatives = [9u16; 3];
    let mut factors = [Check(9); 3];
    let mut numbers = [9u16; 72];
    let mut elements = [Check(9); 18];
    for short in [true, false] {
        let drawn = draw_and_compile(
            &mut made,
            TableMemory {
                targets: &mut book_targets,
                weights: &mut book_weights,
                marks: &mut book_marks,
            },
            TableMemory {
                targets: &mut least_targets,
                weights: &mut least_weights,
                marks: &mut least_marks,
            },
            TableMemory {
                targets: &mut hyper_targets,
                weights: &mut hyper_weights,
                marks: &mut hyper_marks,
            },
            StateMemory {
                representatives: &mut representatives,
                factors: &mut factors,
            },
            WorkMemory {
                numbers: &mut numbers[usize::from(short)..],
                elements: &mut elements,
            },
        );
        if short {
            assert_eq!(rt; drawn, Err(Refusal::ShortMemory));
            assert!(rt; made.iter().all(|one| one.answer.is_none()));
            assert_eq!(rt; book_targets, [9; 3]);
            assert_eq!(rt; least_targets, [9; 4]);
        } else {
            assert_eq!(rt; drawn, Ok(report(2, 1, 1)));
        }
    }
    let answers = made.map(|one| one.answer);
    assert_eq!(rt;
        answers,
        [
            Some(Ok(())),
            Some(Ok(())),
            Some(Err(Refusal::NoRoom)),
            Some(Ok(())),
            Some(Err(Refusal::NoState)),
            Some(Ok(())),
            Some(Err(Refusal::SecondArc)),
            Some(Ok(())),
        ]
    );
    assert_eq!(rt; book_targets, [0, 1, 1]);
    assert_eq!(rt; book_marks, [0, 1]);
    assert!(rt; least_targets.starts_with(&[0, 1, 1]));
    assert!(rt; least_marks.starts_with(&[4, 7]));
    // 7 * 3 into the start weight, and 5 stays on the loop.
    assert_eq!(rt; least_weights[0].code(), 21);
    assert_eq!(rt; least_weights[1].code(), 1);
    assert_eq!(rt; least_weights[2].code(), 5);
    Ok(())
}

// A book over no memory has no room for a state: what is compiled is the off state alone.
#[test]
fn calls_on_no_memory_are_compiled(rt: HostRuntime) -> Result<(), Fail> {
    let mut made = [Made::new(Call::State { accepting: true })];
    let mut least_targets = [9u16; 2];
    let mut least_weights = [Check(9); 2];
    let mut least_marks = [9u8; 1];
    let mut hyper_targets = [9u16; 2];
    let mut hyper_weights = [Check(9); 2];
    let mut hyper_marks = [9u8; 1];
    let drawn = draw_and_compile(
        &mut made,
        TableMemory {
            targets: &mut [],
            weights: &mut [],
            marks: &mut [],
        },
        TableMemory {
            targets: &mut least_targets,
            weights: &mut least_weights,
            marks: &mut least_marks,
        },
        TableMemory {
            targets: &mut hyper_targets,
            weights: &mut hyper_weights,
            marks: &mut hyper_marks,
        },
        StateMemory {
            representatives: &mut [9u16],
            factors: &mut [Check(9)],
        },
        WorkMemory {
            numbers: &mut [9u16; 24],
            elements: &mut [Check(9); 6],
        },
    );
    assert_eq!(rt; drawn, Ok(report(1, 1, 1)));
    assert_eq!(rt; made[0].answer, Some(Err(Refusal::NoRoom)));
    assert_eq!(rt; least_targets, [0, 0]);
    assert_eq!(rt; least_weights.map(|weight| weight.code()), [1, 1]);
    assert_eq!(rt; least_marks, [2]);
    Ok(())
}
