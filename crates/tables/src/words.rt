ghost use Rattle.std.specs.Prelude.{◌≡◌, None};
ghost use Rattle.weights.specs.Refusal.{outcome_as};
ghost use Rattle.tables.specs.Table.{is_letter_count, letters_read, no_letter_from, weight_of, weighing, meant};

use crate::source::Source;
use weights::{Refusal, Weight};

// Whether a table may have so many letters.
pub fn is_letter_count(count: u8) -> bool
    ensures { result ≡ is_letter_count count }
{
    (1..=64).contains(&count)
}

// A count of letters, read as one that a table may have.
pub fn letters_read(count: u8) -> u8
    ensures { result ≡ letters_read count }
{
    count.clamp(1, 64)
}

// The index of the first byte that is none of so many letters.
pub fn first_no_letter(word: &[u8], letters: u8) -> Option<usize>
    ensures { result ≡ no_letter_from letters 0 word.now }
{
    for (i, byte) in word.iter().enumerate() {
        if *byte >= letters {
            return Some(i);
        }
    }
    None
}

// The weight of a word whose bytes all are letters.
fn run<W: Weight, S: Source<W>>(source: &S, word: &[u8]) -> Option<W>
    requires { no_letter_from (S.table source.now W.kind).letters 0 word.now ≡ None }
    ensures { meant W.kind result ≡ weight_of W.kind.group (S.table source.now W.kind) word.now }
{
    let mut state = source.start();
    let mut product = source.start_weight();
    for letter in word {
        product = product.times(source.weight(state, *letter).unwrap());
        state = source.target(state, *letter).unwrap();
    }
    source.is_final(state).unwrap().then_some(product)
}

// The weight of a word, or none; a byte that is no letter is refused by 3, with the index of the first such byte.
pub fn weigh<W: Weight, S: Source<W>>(source: &S, word: &[u8]) -> Result<Option<W>, Refusal>
    ensures { outcome_as (meant W.kind) result ≡ weighing W.kind.group (S.table source.now W.kind) word.now }
{
    match first_no_letter(word, source.letters()) {
        Some(i) => Err(Refusal::NoLetterAt(i)),
        None => Ok(run(source, word)),
    }
}
