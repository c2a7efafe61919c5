use minimize::TableView;
use std::alloc::{AllocError, Global};
use tables::{Made, Sheet, draw, drawn_size};
use weights::Weight;

// The three memories of a table.
#[derive(Drop)]
pub(crate) struct Memories<W> {
    pub(crate) targets: Vec<u16>,
    pub(crate) weights: Vec<W>,
    pub(crate) marks: Vec<u8>,
}

impl<W: Weight> Memories<W> {
    // Room for so many states.
    pub(crate) fn new(states: u16, letters: u8, alloc: Global) -> Result<Memories<W>, AllocError> {
        let places = 1 + usize::from(states) * usize::from(letters);
        Ok(Memories {
            targets: vec![in alloc; 0u16; places]?,
            weights: vec![in alloc; W::one(); places]?,
            marks: vec![in alloc; 0u8; usize::from(states)]?,
        })
    }

    // Room for just what a list of calls draws.
    pub(crate) fn for_list(list: &[Made<W>], alloc: Global) -> Result<Memories<W>, AllocError> {
        let size = drawn_size(usize::MAX, usize::MAX, usize::MAX, list);
        Memories::new(size.states, size.letters, alloc)
    }

    // Makes the calls of a list on a new book, and closes it.
    pub(crate) fn draw(&mut self, list: &mut [Made<W>]) -> Sheet<'_, W> {
        draw(&mut self.targets, &mut self.weights, &mut self.marks, list)
    }

    // The table of so many states and letters that they hold, without an off state.
    pub(crate) fn table(&self, states: u16, letters: u8) -> TableView<'_, W> {
        TableView::new(&self.targets, &self.weights, &self.marks, states, letters)
    }
}
