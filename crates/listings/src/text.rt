ghost use Rattle.std.specs.Prelude.{◌≤◌, ◌+◌, length};
ghost use Rattle.std.specs.Fmt.{decimal};
ghost use Rattle.listings.specs.Text.{Put};
ghost use Rattle.listings.specs.Listing.{field, line};

// Puts text into a memory from place `at` on, and answers the place after it.
pub(crate) fn put(text: &[u8], at: usize, out: &mut [u8]) -> usize
    requires { at + length text.now ≤ length out.old }
    ensures { Put text.now at out.old out.new result }
{
    let next = at + text.len();
    out[at..next].copy_from_slice(text);
    next
}

// Puts a number in its fewest digits.
pub(crate) fn put_number(number: usize, at: usize, out: &mut [u8]) -> usize
    requires { at + length (decimal number) ≤ length out.old }
    ensures { Put (decimal number) at out.old out.new result }
{
    let last = b'0' + (number % 10) as u8;
    if number < 10 {
        put(&[last], at, out)
    } else {
        let next = put_number(number / 10, at, out);
        put(&[last], next, out)
    }
}

// Puts a word and a number.
pub(crate) fn put_field(word: &[u8], number: u16, at: usize, out: &mut [u8]) -> usize
    requires { at + length word.now + 5 ≤ length out.old }
    ensures put { Put (field word.now number) at out.old out.new result }
    ensures few { result ≤ at + length word.now + 5 }
{
    let next = put(word, at, out);
    put_number(usize::from(number), next, out)
}

// Puts a line of a word and a number.
pub(crate) fn put_line(word: &[u8], number: u16, at: usize, out: &mut [u8]) -> usize
    requires { at + length word.now + 6 ≤ length out.old }
    ensures put { Put (line word.now number) at out.old out.new result }
    ensures few { result ≤ at + length word.now + 6 }
{
    let next = put_field(word, number, at, out);
    put(b"\n", next, out)
}
