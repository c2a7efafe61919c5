use crate::sort::Plan;
use minimize::{Report, StateMemory, TableMemory, Watch, WorkMemory, compile_watched};
use std::alloc::{AllocError, Global};
use tables::{Sheet, Source};
use weights::{Coded, Refusal, Weight};

// The three memories of a table.
#[derive(Drop)]
pub(crate) struct Memories<W> {
    targets: Vec<u16>,
    weights: Vec<W>,
    marks: Vec<u8>,
}

impl<W: Weight> Memories<W> {
    // Room for so many states.
    fn new(states: usize, letters: usize, alloc: Global) -> Result<Memories<W>, AllocError> {
        let places = states.saturating_mul(letters).saturating_add(1);
        Ok(Memories {
            targets: vec![in alloc; 0u16; places]?,
            weights: vec![in alloc; W::one(); places]?,
            marks: vec![in alloc; 0u8; states]?,
        })
    }
}

impl<W: Coded> Memories<W> {
    // The table of a plan, in the layout of a book.
    pub(crate) fn planned(
        plan: Plan,
        letters: u8,
        alloc: Global,
    ) -> Result<Memories<W>, AllocError> {
        let mut targets = Vec::new(alloc);
        let mut weights = Vec::new(alloc);
        let mut marks = Vec::new(alloc);
        targets.push(0u16)?;
        weights.push(W::one())?;
        for state in 0..plan.drawn() {
            for letter in 0..letters {
                targets.push(plan.target(state, letter))?;
                weights.push(plan.weight::<W>(state, letter))?;
            }
            marks.push(u8::from(plan.is_final(state)))?;
        }
        Ok(Memories {
            targets,
            weights,
            marks,
        })
    }

    pub(crate) fn sheet(&self, states: u16, letters: u8) -> Result<Sheet<'_, W>, Refusal> {
        Sheet::new(&self.targets, &self.weights, &self.marks, states, letters)
    }
}

// The memories that the compiler is lent.
#[derive(Drop)]
pub(crate) struct Room<W> {
    least: Memories<W>,
    hyper: Memories<W>,
    representatives: Vec<u16>,
    factors: Vec<W>,
    numbers: Vec<u16>,
    elements: Vec<W>,
}

impl<W: Weight> Room<W> {
    // Memories of just the lengths that a source needs.
    pub(crate) fn new<S: Source<W>>(source: &S, alloc: Global) -> Result<Room<W>, AllocError> {
        let letters = usize::from(source.letters());
        let states = usize::from(source.states());
        Ok(Room {
            least: Memories::new(states, letters, alloc)?,
            hyper: Memories::new(states, letters, alloc)?,
            representatives: vec![in alloc; 0u16; states]?,
            factors: vec![in alloc; W::one(); states]?,
            numbers: vec![in alloc; 0u16; states.saturating_mul(24)]?,
            elements: vec![in alloc; W::one(); states.saturating_mul(6)]?,
        })
    }

    // Has the compiler make the tables of a source.
    pub(crate) fn compile<S: Source<W>, T: Watch>(
        self,
        source: &S,
        watch: &mut T,
    ) -> Result<Report, Refusal> {
        let Room {
            mut least,
            mut hyper,
            mut representatives,
            mut factors,
            mut numbers,
            mut elements,
        } = self;
        compile_watched(
            source,
            TableMemory {
                targets: &mut least.targets,
                weights: &mut least.weights,
                marks: &mut least.marks,
            },
            TableMemory {
                targets: &mut hyper.targets,
                weights: &mut hyper.weights,
                marks: &mut hyper.marks,
            },
            StateMemory {
                representatives: &mut representatives,
                factors: &mut factors,
            },
            WorkMemory {
                numbers: &mut numbers,
                elements: &mut elements,
            },
            watch,
        )
    }
}
