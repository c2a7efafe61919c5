ghost use Rattle.std.specs.Prelude.{◌≡◌, ◌<◌, ◌≤◌, true, length};
ghost use Rattle.tables.specs.Book.{laid, size_of};
ghost use Rattle.tables.specs.Call.{has_places};
ghost use Rattle.tables.specs.Made.{Drawn};
ghost use Rattle.tables.specs.Sheet.{sheet_table};
ghost use Rattle.tables.specs.Table.{is_letter_count};
ghost use Rattle.minimize.specs.Memories.{Room, memories};
ghost use Rattle.minimize.specs.Compile.{Outcome};
ghost use Rattle.minimize.specs.Whole.{drawing, sketch_in, WholeOutcome};

use crate::compiler::{Report, compile_slices, has_room};
use crate::memories::{StateMemory, TableMemory, WorkMemory};
use crate::watch::Unwatched;
use tables::{Book, DrawnSize, Made, Sheet, drawn_size, make_all};
use weights::{Refusal, Weight};

// Makes a list of calls on a new book over three memories, and lets the book go.
fn draw_in<W: Weight>(
    targets: &mut [u16],
    weights: &mut [W],
    marks: &mut [u8],
    made: &mut [Made<W>],
)
    ensures { Drawn W.kind targets.old weights.old marks.old made.old made.new
        (laid targets.new weights.new marks.new (sketch_in (drawing targets.old weights.old marks.old made.old)).letters
        (length (sketch_in (drawing targets.old weights.old marks.old made.old)).finals)) }
{
    let mut book = Book::open(targets, weights, marks);
    make_all(&mut book, made);
}

// Compiles what three memories hold as a book of that size left it.
fn compile_drawn<'a, W: Weight>(
    size: DrawnSize,
    book_targets: &'a [u16],
    book_weights: &'a [W],
    book_marks: &'a [u8],
    targets: &mut [u16],
    weights: &mut [W],
    marks: &mut [u8],
    hyper_targets: &mut [u16],
    hyper_weights: &mut [W],
    hyper_marks: &mut [u8],
    representatives: &mut [u16],
    factors: &mut [W],
    numbers: &mut [u16],
    elements: &mut [W],
) -> Result<Report, Refusal>
    requires letters { is_letter_count size.letters ≡ true }
    requires states { size.states ≤ 4095 }
    requires places { 0 < size.states → has_places (size_of (laid book_targets.now book_weights.now book_marks.now size.letters size.states)) ≡ true }
    ensures { Outcome W.kind (sheet_table W.kind (laid book_targets.now book_weights.now book_marks.now size.letters size.states))
        (memories targets.old weights.old marks.old hyper_targets.old hyper_weights.old hyper_marks.old representatives.old factors.old numbers.old elements.old)
        (memories targets.new weights.new marks.new hyper_targets.new hyper_weights.new hyper_marks.new representatives.new factors.new numbers.new elements.new) result }
{
    match Sheet::new(
        book_targets,
        book_weights,
        book_marks,
        size.states,
        size.letters,
    ) {
        Ok(sheet) => compile_slices(
            &sheet,
            targets,
            weights,
            marks,
            hyper_targets,
            hyper_weights,
            hyper_marks,
            representatives,
            factors,
            numbers,
            elements,
            &mut Unwatched,
        ),
        // A book of no states over memories of no places.
        Err(_) => {
            let mut no_targets = [0u16; 0];
            let mut no_weights: [W; 0] = [];
            let mut no_marks = [0u8; 0];
            let mut book = Book::open(&mut no_targets, &mut no_weights, &mut no_marks);
            let _ = book.rule(size.letters);
            compile_slices(
                &book.close(),
                targets,
                weights,
                marks,
                hyper_targets,
                hyper_weights,
                hyper_marks,
                representatives,
                factors,
                numbers,
                elements,
                &mut Unwatched,
            )
        }
    }
}

// Makes a list of calls on a new book, lets the book go, and compiles the table that it drew, by a sheet over the same memory.
//
// `made` has the calls, and gets the answer of each; `book` is what the book is drawn in; the rest is as for `compile`. Where `compile`
// would refuse that sheet, this refuses with 6 before it makes the first call, and nothing is written.
pub fn draw_and_compile<W: Weight>(
    made: &mut [Made<W>],
    book: TableMemory<'_, W>,
    least: TableMemory<'_, W>,
    hyper: TableMemory<'_, W>,
    states: StateMemory<'_, W>,
    work: WorkMemory<'_, W>,
) -> Result<Report, Refusal>
    ensures { WholeOutcome W.kind
        (drawing book.entry.targets.now book.entry.weights.now book.entry.marks.now made.old)
        (drawing book.exit.0.now book.exit.1.0.now book.exit.1.1.0.now made.new)
        (memories least.entry.targets.now least.entry.weights.now least.entry.marks.now hyper.entry.targets.now hyper.entry.weights.now hyper.entry.marks.now states.entry.representatives.now states.entry.factors.now work.entry.numbers.now work.entry.elements.now)
        (memories least.exit.0.now least.exit.1.0.now least.exit.1.1.0.now hyper.exit.0.now hyper.exit.1.0.now hyper.exit.1.1.0.now states.exit.0.now states.exit.1.0.now work.exit.0.now work.exit.1.0.now) result }
{
    let TableMemory {
        targets: book_targets,
        weights: book_weights,
        marks: book_marks,
    } = book;
    let TableMemory {
        targets,
        weights,
        marks,
    } = least;
    let TableMemory {
        targets: hyper_targets,
        weights: hyper_weights,
        marks: hyper_marks,
    } = hyper;
    let StateMemory {
        representatives,
        factors,
    } = states;
    let WorkMemory { numbers, elements } = work;
    let size = drawn_size(
        book_targets.len(),
        book_weights.len(),
        book_marks.len(),
        made,
    );
    if !has_room(
        size.states + 1,
        size.letters,
        targets,
        weights,
        marks,
        hyper_targets,
        hyper_weights,
        hyper_marks,
        representatives,
        factors,
        numbers,
        elements,
    ) {
        return Err(Refusal::ShortMemory);
    }
    draw_in(book_targets, book_weights, book_marks, made);
    compile_drawn(
        size,
        book_targets,
        book_weights,
        book_marks,
        targets,
        weights,
        marks,
        hyper_targets,
        hyper_weights,
        hyper_marks,
        representatives,
        factors,
        numbers,
        elements,
    )
}
