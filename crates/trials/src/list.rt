use crate::memories::Memories;
use std::alloc::{AllocError, Global};
use tables::{Book, Call, DrawnSize, Made, Sheet, draw, drawn_size, make_all};
use weights::Weight;

// A list of calls, and the memories that a book is to be drawn in by it.
#[derive(Drop)]
pub(crate) struct List<W> {
    pub(crate) calls: Vec<Call<W>>,
    // for how many states and letters there is room
    pub(crate) room: u16,
    pub(crate) letters: u8,
    // the memory that is a place shorter, if any
    pub(crate) short: Option<u64>,
}

impl<W: Weight> List<W> {
    // The calls, not made yet.
    pub(crate) fn unmade(&self, alloc: Global) -> Result<Vec<Made<W>>, AllocError> {
        let mut made = Vec::new(alloc);
        for call in self.calls.iter() {
            made.push(Made::new(*call))?;
        }
        Ok(made)
    }

    // The memories, new.
    pub(crate) fn memories(&self, alloc: Global) -> Result<Memories<W>, AllocError> {
        let mut memories = Memories::new(self.room, self.letters, alloc)?;
        if let Some(memory) = self.short {
            memories.shorten(memory);
        }
        Ok(memories)
    }
}

// The letters and states that a list comes to in the memories, told before it is drawn.
pub(crate) fn size_of<W: Weight>(memories: &Memories<W>, made: &[Made<W>]) -> DrawnSize {
    drawn_size(
        memories.targets.len(),
        memories.weights.len(),
        memories.marks.len(),
        made,
    )
}

// Draws a list in the memories.
pub(crate) fn drawn<'a, W: Weight>(
    memories: &'a mut Memories<W>,
    made: &mut [Made<W>],
) -> Sheet<'a, W> {
    let Memories {
        targets,
        weights,
        marks,
    } = memories;
    draw(targets, weights, marks, made)
}

// Draws a list in the memories in two parts, the second on the book as the first left it.
pub(crate) fn drawn_in_parts<'a, W: Weight>(
    memories: &'a mut Memories<W>,
    made: &mut [Made<W>],
) -> Sheet<'a, W> {
    let Memories {
        targets,
        weights,
        marks,
    } = memories;
    let mut book = Book::open(targets, weights, marks);
    let half = made.len() / 2;
    let (first, second) = made.split_at_mut(half);
    make_all(&mut book, first);
    make_all(&mut book, second);
    book.close()
}
