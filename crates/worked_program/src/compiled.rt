use crate::memories::Memories;
use minimize::{Report, StateMemory, TableMemory, TableView, WorkMemory, compile};
use std::alloc::Global;
use tables::Source;
use weights::Weight;

// What compiling a source left.
#[derive(Drop)]
pub(crate) struct Compiled<W> {
    pub(crate) report: Report,
    pub(crate) letters: u8,
    pub(crate) least: Memories<W>,
    pub(crate) hyper: Memories<W>,
    pub(crate) representatives: Vec<u16>,
    pub(crate) factors: Vec<W>,
}

impl<W: Weight> Compiled<W> {
    // Compiles a source in memories of just the lengths that it needs.
    pub(crate) fn of<S: Source<W>>(source: &S, alloc: Global) -> anyhow::Result<Compiled<W>> {
        let letters = source.letters();
        let count = source.states();
        let states = usize::from(count);
        let mut least = Memories::new(count, letters, alloc)?;
        let mut hyper = Memories::new(count, letters, alloc)?;
        let mut representatives = vec![in alloc; 0u16; states]?;
        let mut factors = vec![in alloc; W::one(); states]?;
        let mut numbers = vec![in alloc; 0u16; 24 * states]?;
        let mut elements = vec![in alloc; W::one(); 6 * states]?;
        let report = compile(
            source,
            TableMemory {
                targets: &mut least.targets,
                weights: &mut least.weights,
                marks: &mut least.marks,
            },
            TableMemory {
                targets: &mut hyper.targets,
                weights: &mut hyper.weights,
                marks: &mut hyper.marks,
            },
            StateMemory {
                representatives: &mut representatives,
                factors: &mut factors,
            },
            WorkMemory {
                numbers: &mut numbers,
                elements: &mut elements,
            },
        )?;
        Ok(Compiled {
            report,
            letters,
            least,
            hyper,
            representatives,
            factors,
        })
    }

    pub(crate) fn least_table(&self) -> TableView<'_, W> {
        self.least.table(self.report.least, self.letters)
    }

    pub(crate) fn hyper_table(&self) -> TableView<'_, W> {
        self.hyper.table(self.report.hyper, self.letters)
    }
}
