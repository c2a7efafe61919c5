ghost use Rattle.std.specs.Prelude.{◌≡◌};
ghost use Rattle.tables.specs.Book.{is_free, opened, size_of};
ghost use Rattle.tables.specs.Call.{has_room};
ghost use Rattle.tables.specs.Held.{held, written, Lent, Makes};
ghost use Rattle.tables.specs.declared.call.Call.TheVariants.{Rule, State, Arc, Start};

use crate::call::Call;
use crate::memory::{UNSET, arc_place, clear, get_or, has_room, put};
use crate::sheet::Sheet;
use crate::words::is_letter_count;
use weights::{Refusal, Weight};

// A table that is being drawn into three memories, which the book is lent one by one. It has no invariant: what holds of a book is told
// in proofs, beside a sketch of it (`InStep`), which says more than an invariant of the book alone could. A `Model` would hide over
// which memories the book lies.
#[derive(Drop)]
pub struct Book<'a, W> {
    targets: &'a mut [u16],
    weights: &'a mut [W],
    marks: &'a mut [u8],
    letters: u8,
    count: u16,
}

impl<'a, W: Weight> Book<'a, W> {
    // A new book: one letter, no states, and no start.
    pub fn open(targets: &'a mut [u16], weights: &'a mut [W], marks: &'a mut [u8]) -> Book<'a, W>
        ensures holds { written result ≡ opened targets.old weights.old marks.old }
        ensures lent { Lent targets.entry weights.entry marks.entry result }
    {
        put(targets, 0, &UNSET);
        Book {
            targets,
            weights,
            marks,
            letters: 1,
            count: 0,
        }
    }

    // Sets the letters, 1 to 64, while there are no states; else refused by 1.
    pub fn rule(&mut self, letters: u8) -> Result<(), Refusal>
        ensures { Makes self.old self.new (Rule letters) result }
    {
        if self.count > 0 || !is_letter_count(letters) {
            return Err(Refusal::Letters);
        }
        self.letters = letters;
        Ok(())
    }

    // Adds the next state, with no arc set. Refused by 5 where there are 4,095 states or a memory is too short for one more.
    pub fn state(&mut self, accepting: bool) -> Result<(), Refusal>
        ensures { Makes self.old self.new (State accepting) result }
    {
        let count = self.count;
        let letters = self.letters;
        if !self.has_room() {
            return Err(Refusal::NoRoom);
        }
        let row = arc_place(letters, count, 0);
        clear(self.targets, row, usize::from(letters));
        put(self.marks, usize::from(count), &u8::from(accepting));
        self.count = count + 1;
        Ok(())
    }

    // Whether there is room for one more state.
    fn has_room(&self) -> bool
        ensures { result ≡ has_room (size_of (written self.now)) }
    {
        has_room(
            self.targets.len(),
            self.weights.len(),
            self.marks.len(),
            self.letters,
            self.count,
        )
    }

    // Whether a state and a letter have no arc yet.
    fn is_free(&self, from: u16, letter: u8) -> bool
        ensures { result ≡ is_free (written self.now) from letter }
    {
        get_or(self.targets, arc_place(self.letters, from, letter), &UNSET) == UNSET
    }

    // Draws one arc. Refused: a state that is not in the book by 2, a letter by 3, then a target that is not in the book by 2, and
    // last a state and a letter that already have an arc by 10.
    pub fn arc(&mut self, from: u16, letter: u8, to: u16, weight: W) -> Result<(), Refusal>
        ensures { Makes self.old self.new (Arc from letter to weight) result }
    {
        if from >= self.count {
            return Err(Refusal::NoState);
        }
        if letter >= self.letters {
            return Err(Refusal::NoLetter);
        }
        if to >= self.count {
            return Err(Refusal::NoState);
        }
        if !self.is_free(from, letter) {
            return Err(Refusal::SecondArc);
        }
        let at = arc_place(self.letters, from, letter);
        put(self.targets, at, &to);
        put(self.weights, at, &weight);
        Ok(())
    }

    // Sets the start. Refused by 2 where the state is not in the book.
    pub fn start(&mut self, state: u16, weight: W) -> Result<(), Refusal>
        ensures { Makes self.old self.new (Start state weight) result }
    {
        if state >= self.count {
            return Err(Refusal::NoState);
        }
        put(self.targets, 0, &state);
        put(self.weights, 0, &weight);
        Ok(())
    }

    // Ends the book and gives its sheet.
    pub fn close(self) -> Sheet<'a, W>
        ensures { held result ≡ written self.entry }
    {
        let Book {
            targets,
            weights,
            marks,
            letters,
            count,
        } = self;
        Sheet {
            targets,
            weights,
            marks,
            letters,
            count,
        }
    }
}

// Makes one call on the book.
pub fn make<W: Weight>(book: &mut Book<'_, W>, call: Call<W>) -> Result<(), Refusal>
    ensures { Makes book.old book.new call result }
{
    match call {
        Call::Rule { letters } => book.rule(letters),
        Call::State { accepting } => book.state(accepting),
        Call::Arc {
            from,
            letter,
            to,
            weight,
        } => book.arc(from, letter, to, weight),
        Call::Start { state, weight } => book.start(state, weight),
    }
}
