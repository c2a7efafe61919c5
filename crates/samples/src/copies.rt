// A source written as a draft file, and read again into a book.
ghost use Rattle.std.specs.Prelude.{IfSome};
ghost use Rattle.tables.specs.Held.{held};
ghost use Rattle.tables.specs.Sheet.{sheet_table};
ghost use Rattle.tables.specs.Table.{WeighAlike};

use drafts::{read_draft, write_draft};
use tables::{Book, Sheet, Source};
use weights::Coded;

// The sheet that a source's draft file is read as, where neither is refused. It takes three memories, as `Book::open` does.
fn copied<'a, W: Coded, S: Source<W>>(
    source: &S,
    bytes: &mut [u8],
    targets: &'a mut [u16],
    weights: &'a mut [W],
    marks: &'a mut [u8],
) -> Option<Sheet<'a, W>>
    ensures { IfSome result (λ sheet. WeighAlike W.kind.group (sheet_table W.kind (held sheet)) (S.table source.now W.kind)) }
{
    let length = write_draft(source, bytes).ok()?;
    let mut book = Book::open(targets, weights, marks);
    read_draft(&bytes[..length], &mut book).ok()?;
    Some(book.close())
}
