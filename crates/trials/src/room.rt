use crate::memories::Memories;
use minimize::{Report, StateMemory, TableMemory, WorkMemory, compile, draw_and_compile};
use std::alloc::{AllocError, Global};
use tables::{Made, Source};
use weights::{Refusal, Weight};

// The memories that the compiler is lent.
#[derive(Drop)]
pub(crate) struct Room<W> {
    least: Memories<W>,
    hyper: Memories<W>,
    representatives: Vec<u16>,
    factors: Vec<W>,
    numbers: Vec<u16>,
    elements: Vec<W>,
}

// How many memories those are.
pub(crate) const MEMORIES: u64 = 10;

// What the compiler made of a source.
#[derive(Drop)]
pub(crate) struct Results<W> {
    pub(crate) report: Report,
    pub(crate) least: Memories<W>,
    pub(crate) hyper: Memories<W>,
    pub(crate) representatives: Vec<u16>,
    pub(crate) factors: Vec<W>,
}

impl<W: Weight> Room<W> {
    // Memories of just the lengths that so many states and letters need.
    pub(crate) fn new(states: u16, letters: u8, alloc: Global) -> Result<Room<W>, AllocError> {
        let count = usize::from(states);
        Ok(Room {
            least: Memories::new(states, letters, alloc)?,
            hyper: Memories::new(states, letters, alloc)?,
            representatives: vec![in alloc; 1u16; count]?,
            factors: vec![in alloc; W::one(); count]?,
            numbers: vec![in alloc; 1u16; count.saturating_mul(24)]?,
            elements: vec![in alloc; W::one(); count.saturating_mul(6)]?,
        })
    }

    // Takes the last place from one of the memories.
    pub(crate) fn shorten(&mut self, memory: u64) {
        match memory {
            0..=2 => self.least.shorten(memory),
            3..=5 => self.hyper.shorten(memory.saturating_sub(3)),
            6 => {
                let _ = self.representatives.pop();
            },
            7 => {
                let _ = self.factors.pop();
            },
            8 => {
                let _ = self.numbers.pop();
            },
            _ => {
                let _ = self.elements.pop();
            },
        }
    }

    // Has the compiler make the tables of a source.
    pub(crate) fn compile<S: Source<W>>(self, source: &S) -> Result<Results<W>, Refusal> {
        let Room {
            mut least,
            mut hyper,
            mut representatives,
            mut factors,
            mut numbers,
            mut elements,
        } = self;
        let report = compile(
            source,
            TableMemory {
                targets: &mut least.targets,
                weights: &mut least.weights,
                marks: &mut least.marks,
            },
            TableMemory {
                targets: &mut hyper.targets,
                weights: &mut hyper.weights,
                marks: &mut hyper.marks,
            },
            StateMemory {
                representatives: &mut representatives,
                factors: &mut factors,
            },
            WorkMemory {
                numbers: &mut numbers,
                elements: &mut elements,
            },
        )?;
        Ok(Results {
            report,
            least,
            hyper,
            representatives,
            factors,
        })
    }

    // Has the compiler draw a list of calls in the memories of a book, and make the tables of what it comes to.
    pub(crate) fn draw_and_compile(
        self,
        made: &mut [Made<W>],
        book: Memories<W>,
    ) -> Result<Results<W>, Refusal> {
        let Room {
            mut least,
            mut hyper,
            mut representatives,
            mut factors,
            mut numbers,
            mut elements,
        } = self;
        let Memories {
            mut targets,
            mut weights,
            mut marks,
        } = book;
        let report = draw_and_compile(
            made,
            TableMemory {
                targets: &mut targets,
                weights: &mut weights,
                marks: &mut marks,
            },
            TableMemory {
                targets: &mut least.targets,
                weights: &mut least.weights,
                marks: &mut least.marks,
            },
            TableMemory {
                targets: &mut hyper.targets,
                weights: &mut hyper.weights,
                marks: &mut hyper.marks,
            },
            StateMemory {
                representatives: &mut representatives,
                factors: &mut factors,
            },
            WorkMemory {
                numbers: &mut numbers,
                elements: &mut elements,
            },
        )?;
        Ok(Results {
            report,
            least,
            hyper,
            representatives,
            factors,
        })
    }
}
