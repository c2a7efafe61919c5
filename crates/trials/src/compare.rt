use crate::element::Element;
use crate::memories::Memories;
use crate::room::Results;
use reference::{Compiled, Table};
use std::alloc::{AllocError, Global};
use std::fmt;
use tables::{DrawnSize, Made};
use weights::Refusal;

// What of the two is compared.
#[derive(Clone, Copy, PartialEq, Eq, Debug)]
pub(crate) enum Part {
    CallAnswer,
    Unmade,
    DrawnSize,
    DrawnTarget,
    DrawnWeight,
    DrawnMark,
    Answer,
    Report,
    LeastTarget,
    LeastWeight,
    LeastMark,
    Representative,
    Factor,
    HyperTarget,
    HyperWeight,
    HyperMark,
}

impl fmt::Display for Part {
    fn fmt<W: fmt::Write>(&self, f: &mut fmt::Formatter<W>) -> fmt::Result {
        f.write_str(match self {
            Part::CallAnswer => "answer to a call",
            Part::Unmade => "answer to a call that is not made",
            Part::DrawnSize => "letters and states of a drawn table",
            Part::DrawnTarget => "target of a drawn table",
            Part::DrawnWeight => "weight of a drawn table",
            Part::DrawnMark => "mark of a drawn table",
            Part::Answer => "answer with a short memory",
            Part::Report => "report",
            Part::LeastTarget => "target of the least table",
            Part::LeastWeight => "weight of the least table",
            Part::LeastMark => "mark of the least table",
            Part::Representative => "representative",
            Part::Factor => "factor",
            Part::HyperTarget => "target of the hyper table",
            Part::HyperWeight => "weight of the hyper table",
            Part::HyperMark => "mark of the hyper table",
        })
    }
}

// The first place where the library and the reference differ.
#[derive(Clone, Copy)]
pub(crate) struct Difference {
    part: Part,
    place: usize,
    library: usize,
    reference: usize,
}

impl fmt::Display for Difference {
    fn fmt<W: fmt::Write>(&self, f: &mut fmt::Formatter<W>) -> fmt::Result {
        write!(
            f,
            "{}, place {}: library {}, reference {}",
            self.part, self.place, self.library, self.reference
        )
    }
}

// The difference between an answer and the one that is wanted, by the numbers of their refusals.
pub(crate) fn answer_difference(
    part: Part,
    place: usize,
    answer: Option<Refusal>,
    wanted: Option<Refusal>,
) -> Option<Difference> {
    let library = number(answer);
    let reference = number(wanted);
    (library != reference).then_some(Difference {
        part,
        place,
        library,
        reference,
    })
}

// The number of a refusal, 0 for none.
fn number(refusal: Option<Refusal>) -> usize {
    match refusal {
        Some(refusal) => usize::from(refusal.number()),
        None => 0,
    }
}

// What stands for the number of a call that is not made.
const UNMADE: usize = usize::MAX;

// The number by which a call of a list was refused, 0 where it was taken.
fn answer_number<W>(made: &Made<W>) -> usize {
    match made.answer {
        Some(answer) => number(answer.err()),
        None => UNMADE,
    }
}

// The first call of a list that is made though it should not be.
pub(crate) fn unmade_difference<W>(made: &[Made<W>]) -> Option<Difference> {
    for (place, one) in made.iter().enumerate() {
        let library = answer_number(one);
        if library != UNMADE {
            return Some(Difference {
                part: Part::Unmade,
                place,
                library,
                reference: UNMADE,
            });
        }
    }
    None
}

// The first difference between the answers of a list of calls and the refusals that are wanted.
pub(crate) fn answers_difference<W>(
    made: &[Made<W>],
    wanted: &[Option<Refusal>],
) -> Option<Difference> {
    for (place, (one, wanted)) in made.iter().zip(wanted).enumerate() {
        let library = answer_number(one);
        let reference = number(*wanted);
        if library != reference {
            return Some(Difference {
                part: Part::CallAnswer,
                place,
                library,
                reference,
            });
        }
    }
    None
}

// The difference between two sizes of a drawn table, the letters first.
pub(crate) fn size_difference(size: DrawnSize, letters: u8, states: u16) -> Option<Difference> {
    numbers(
        Part::DrawnSize,
        &[u16::from(size.letters), size.states],
        &[usize::from(letters), usize::from(states)],
    )
}

// The first difference between a closed book and the table that is wanted.
pub(crate) fn table_difference<W: Element>(
    drawn: &Memories<W>,
    wanted: &Wanted<W>,
) -> Option<Difference> {
    numbers(Part::DrawnTarget, &drawn.targets, &wanted.targets)
        .or(elements(Part::DrawnWeight, &drawn.weights, &wanted.weights))
        .or(bytes(Part::DrawnMark, &drawn.marks, &wanted.marks))
}

// The first difference between what both make of a source.
pub(crate) fn first_difference<W: Element>(
    made: &Results<W>,
    wanted: &Compiled<W>,
    alloc: Global,
) -> Result<Option<Difference>, AllocError> {
    let report = [
        made.report.least,
        made.report.hyper,
        made.report.kernel,
        made.report.agreement,
    ];
    let counts = [
        wanted.least.states.len(),
        wanted.hyper.states.len(),
        wanted.kernel_count,
        wanted.agreement,
    ];
    let mut least = Wanted::of(&wanted.least, alloc)?;
    for state in 0..wanted.least.states.len() {
        least.add_mark(mark(wanted, state))?;
    }
    let mut hyper = Wanted::of(&wanted.hyper, alloc)?;
    for state in wanted.kept.iter() {
        hyper.add_mark(mark(wanted, *state))?;
    }
    Ok(
        numbers(Part::Report, &report, &counts)
            .or(numbers(Part::LeastTarget, &made.least.targets, &least.targets))
            .or(elements(Part::LeastWeight, &made.least.weights, &least.weights))
            .or(bytes(Part::LeastMark, &made.least.marks, &least.marks))
            .or(numbers(
                Part::Representative,
                &made.representatives,
                &wanted.representatives,
            ))
            .or(elements(Part::Factor, &made.factors, &wanted.factors))
            .or(numbers(Part::HyperTarget, &made.hyper.targets, &hyper.targets))
            .or(elements(Part::HyperWeight, &made.hyper.weights, &hyper.weights))
            .or(bytes(Part::HyperMark, &made.hyper.marks, &hyper.marks)),
    )
}

// A table in the layout of a book.
#[derive(Drop)]
pub(crate) struct Wanted<W> {
    targets: Vec<usize>,
    weights: Vec<W>,
    marks: Vec<u8>,
}

impl<W: Element> Wanted<W> {
    // The layout with nothing in it.
    pub(crate) fn new(alloc: Global) -> Wanted<W> {
        Wanted {
            targets: Vec::new(alloc),
            weights: Vec::new(alloc),
            marks: Vec::new(alloc),
        }
    }

    // A table without marks.
    fn of(table: &Table<W>, alloc: Global) -> Result<Wanted<W>, AllocError> {
        let mut wanted = Wanted::new(alloc);
        wanted.add_step(table.start, table.start_weight)?;
        for state in table.states.iter() {
            for arc in state.arcs.iter() {
                wanted.add_step(arc.target, arc.weight)?;
            }
        }
        Ok(wanted)
    }

    // Adds the start, and then the arcs in their order.
    pub(crate) fn add_step(&mut self, target: usize, weight: W) -> Result<(), AllocError> {
        self.targets.push(target)?;
        self.weights.push(weight)?;
        Ok(())
    }

    pub(crate) fn add_mark(&mut self, mark: u8) -> Result<(), AllocError> {
        self.marks.push(mark)?;
        Ok(())
    }
}

// The mark of a state of the least table: 1 for final, 2 for kernel and 4 for co-kernel.
fn mark<W: Element>(wanted: &Compiled<W>, state: usize) -> u8 {
    let is_final = match wanted.least.states.get(state) {
        Some(state) => state.is_final,
        None => false,
    };
    let kernel = wanted.kernel.get(state).copied().unwrap_or(false);
    let co_kernel = wanted.co_kernel.get(state).copied().unwrap_or(false);
    u8::from(is_final) | u8::from(kernel) << 1 | u8::from(co_kernel) << 2
}

fn numbers(part: Part, made: &[u16], wanted: &[usize]) -> Option<Difference> {
    for (place, (made, wanted)) in made.iter().zip(wanted).enumerate() {
        if usize::from(*made) != *wanted {
            return Some(Difference {
                part,
                place,
                library: usize::from(*made),
                reference: *wanted,
            });
        }
    }
    None
}

fn bytes(part: Part, made: &[u8], wanted: &[u8]) -> Option<Difference> {
    for (place, (made, wanted)) in made.iter().zip(wanted).enumerate() {
        if *made != *wanted {
            return Some(Difference {
                part,
                place,
                library: usize::from(*made),
                reference: usize::from(*wanted),
            });
        }
    }
    None
}

fn elements<W: Element>(part: Part, made: &[W], wanted: &[W]) -> Option<Difference> {
    for (place, (made, wanted)) in made.iter().zip(wanted).enumerate() {
        if !made.same(*wanted) {
            return Some(Difference {
                part,
                place,
                library: made.shown(),
                reference: wanted.shown(),
            });
        }
    }
    None
}
