// Lists of calls, made on a book one after another.
ghost use Rattle.tables.specs.Held.{held};
ghost use Rattle.tables.specs.Made.{MakesAll, Drawn};

use crate::book::{Book, make};
use crate::made::Made;
use crate::sheet::Sheet;
use weights::Weight;

// Makes the calls of a list on a book one after another, and writes each answer beside its call.
pub fn make_all<W: Weight>(book: &mut Book<'_, W>, made: &mut [Made<W>])
    ensures { MakesAll book.old book.new made.old made.new }
{
    for one in made.iter_mut() {
        one.answer = Some(make(book, one.call));
    }
}

// Makes a list of calls on a new book over three memories, writes each answer beside its call, and closes the book.
pub fn draw<'a, W: Weight>(
    targets: &'a mut [u16],
    weights: &'a mut [W],
    marks: &'a mut [u8],
    made: &mut [Made<W>],
) -> Sheet<'a, W>
    ensures { Drawn W.kind targets.old weights.old marks.old made.old made.new (held result) }
{
    let mut book = Book::open(targets, weights, marks);
    make_all(&mut book, made);
    book.close()
}
