// What the owner of the memories knows of them once a book over them is gone.
ghost use Rattle.std.specs.Prelude.{◌≡◌};

use tables::Book;
use weights::Check;

// A new book makes the start unset and leaves the rest as it was.
fn opened_and_let_go() -> (u16, u16, u8)
    ensures { result ≡ (65535, 5, 3) }
{
    let mut targets = [4u16, 5];
    let mut weights = [Check(1), Check(1)];
    let mut marks = [3u8];
    {
        let _book = Book::open(&mut targets, &mut weights, &mut marks);
    }
    (targets[0], targets[1], marks[0])
}

// One state over one letter, with an arc to itself; a second one is refused and writes nothing.
fn drawn_and_let_go() -> (u16, u8, u8)
    ensures { result ≡ (0, 9, 1) }
{
    let mut targets = [4u16, 5];
    let mut weights = [Check(1), Check(1)];
    let mut marks = [3u8];
    {
        let mut book = Book::open(&mut targets, &mut weights, &mut marks);
        let _ = book.state(true);
        let _ = book.arc(0, 0, 0, Check(9));
        let _ = book.arc(0, 0, 0, Check(7));
    }
    (targets[1], weights[1].0, marks[0])
}
