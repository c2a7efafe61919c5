ghost use Rattle.std.specs.Prelude.{◌≡◌, ◌<◌, length};
ghost use Rattle.tables.specs.Held.{written, SameMemory};
ghost use Rattle.drafts.specs.Advancing.{Advanced};
ghost use Rattle.drafts.specs.Draft.{listing, reading};
ghost use Rattle.drafts.specs.Fault.{faulted, ended};

use crate::fault::{Fault, Layer};
use crate::field::read_field;
use tables::{Book, make};
use weights::Coded;

// Reads the field at an offset and makes its call; the answer is the offset of the next.
fn advance<W: Coded>(bytes: &[u8], offset: usize, book: &mut Book<'_, W>) -> Result<usize, Fault>
    requires { offset < length bytes.now }
    ensures read { Advanced W.codes bytes.now offset (written book.old) (written book.new) result }
    ensures lent { SameMemory book.old book.new }
{
    let field = read_field(offset, &bytes[offset..])?;
    make(book, field.call).map_err(|refusal| Fault {
        layer: Layer::Book,
        refusal,
        offset,
    })?;
    Ok(offset + field.length)
}

// Reads a draft file: makes the calls that it lists, up to its fault or the first that the book refuses.
pub fn read_draft<W: Coded>(bytes: &[u8], book: &mut Book<'_, W>) -> Result<(), Fault>
    ensures answer { faulted result ≡ ended (reading (written book.old) (listing W.codes bytes.now)).fault }
    ensures after { written book.new ≡ (reading (written book.old) (listing W.codes bytes.now)).after }
    ensures lent { SameMemory book.old book.new }
{
    if bytes.is_empty() {
        return Err(Fault::malformed(0));
    }
    let mut offset = 0;
    // Each field tells where the next begins.
    while offset < bytes.len() {
        offset = advance(bytes, offset, book)?;
    }
    Ok(())
}
