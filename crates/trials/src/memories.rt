use std::alloc::{AllocError, Global};
use tables::Source;
use weights::Weight;

// The three memories of a table, in the layout of a book.
#[derive(Drop)]
pub(crate) struct Memories<W> {
    pub(crate) targets: Vec<u16>,
    pub(crate) weights: Vec<W>,
    pub(crate) marks: Vec<u8>,
}

impl<W: Weight> Memories<W> {
    // Room for so many states, filled with numbers that mean nothing.
    pub(crate) fn new(states: u16, letters: u8, alloc: Global) -> Result<Memories<W>, AllocError> {
        let places = usize::from(states)
            .saturating_mul(usize::from(letters))
            .saturating_add(1);
        Ok(Memories {
            targets: vec![in alloc; 1u16; places]?,
            weights: vec![in alloc; W::one(); places]?,
            marks: vec![in alloc; 255u8; usize::from(states)]?,
        })
    }

    // The table of a source, question by question; of what it does not answer, numbers that no table has.
    pub(crate) fn of<S: Source<W>>(source: &S, alloc: Global) -> Result<Memories<W>, AllocError> {
        let mut targets = Vec::new(alloc);
        let mut weights = Vec::new(alloc);
        let mut marks = Vec::new(alloc);
        targets.push(source.start())?;
        weights.push(source.start_weight())?;
        for state in 0..source.states() {
            for letter in 0..source.letters() {
                targets.push(source.target(state, letter).unwrap_or(u16::MAX))?;
                weights.push(source.weight(state, letter).unwrap_or(W::one()))?;
            }
            let mark = match source.is_final(state) {
                Some(is_final) => u8::from(is_final),
                None => u8::MAX,
            };
            marks.push(mark)?;
        }
        Ok(Memories {
            targets,
            weights,
            marks,
        })
    }

    // Takes the last place from one of the three.
    pub(crate) fn shorten(&mut self, memory: u64) {
        match memory {
            0 => {
                let _ = self.targets.pop();
            },
            1 => {
                let _ = self.weights.pop();
            },
            _ => {
                let _ = self.marks.pop();
            },
        }
    }
}
