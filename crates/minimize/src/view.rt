ghost use Rattle.std.specs.Prelude.{◌≡◌, true, Some, slice_get};
ghost use Rattle.tables.specs.Book.{laid, place};
ghost use Rattle.tables.specs.Sheet.{width, mean_at};
ghost use Rattle.tables.specs.Table.{has_arc, meant, weight_at};
ghost use Rattle.minimize.specs.View.{viewed, seen_to, view_table, view_lawful};

use crate::rows::{NONE, place};
use tables::{Source, element_in, get_or, letters_read};
use weights::Weight;

// A table that three slices hold in the layout of a book, without an off state: what compiling leaves can be read so. It has no
// invariant: each count and length is checked where a question is asked, so that a view means some lawful table whatever they are.
#[derive(Clone, Copy)]
pub struct TableView<'a, W> {
    targets: &'a [u16],
    weights: &'a [W],
    marks: &'a [u8],
    letters: u8,
    count: u16,
}

impl<'a, W: Weight> TableView<'a, W> {
    // The view of that many states and letters, which are read as 1 to 4096 and 1 to 64. A target that is no state is read as the last
    // state, and so is one whose place does not exist; a weight whose place does not exist is one. Only the lowest bit of a mark counts,
    // and a state whose mark does not exist is not final.
    pub fn new(
        targets: &'a [u16],
        weights: &'a [W],
        marks: &'a [u8],
        states: u16,
        letters: u8,
    ) -> TableView<'a, W>
        ensures { viewed result ≡ laid targets.now weights.now marks.now letters states }
    {
        TableView {
            targets,
            weights,
            marks,
            letters,
            count: states,
        }
    }

    // Whether a state and a letter are of the table.
    fn has_arc(&self, state: u16, letter: u8) -> bool
        ensures { result ≡ has_arc (view_table W.kind (viewed self.now)) state letter }
    {
        state < self.states() && letter < self.letters()
    }

    // Where the place leads: to the last state if to none of the table.
    fn led_to(&self, at: usize) -> u16
        ensures { result ≡ seen_to (viewed self.now) at }
    {
        get_or(self.targets, at, &NONE).min(self.states() - 1)
    }

    // With which weight the place leads.
    fn led_by(&self, at: usize) -> W
        ensures meaning { W.kind.mean result ≡ mean_at W.kind (viewed self.now).weights at }
        ensures element { (x : W) → slice_get (viewed self.now).weights at ≡ Some x → result ≡ x }
    {
        element_in(self.weights, at)
    }
}

impl<W: Weight> Source<W> for TableView<'_, W> {
    ghost table = { λ v K. view_table K (viewed v) };

    ghost lawful = { λ v K. view_lawful K (viewed v) };

    fn states(&self) -> u16 {
        self.count.clamp(1, 4096)
    }

    fn letters(&self) -> u8 {
        letters_read(self.letters)
    }

    fn start(&self) -> u16 {
        self.led_to(0)
    }

    // The element at place 0.
    fn start_weight(&self) -> W
        ensures meaning { W.kind.mean result ≡ (view_table W.kind (viewed self.now)).start_weight }
        ensures element { (x : W) → slice_get (viewed self.now).weights 0 ≡ Some x → result ≡ x }
    {
        self.led_by(0)
    }

    fn is_final(&self, state: u16) -> Option<bool> {
        (state < self.states()).then_some(get_or(self.marks, usize::from(state), &0) % 2 == 1)
    }

    fn target(&self, state: u16, letter: u8) -> Option<u16> {
        if !self.has_arc(state, letter) {
            return None;
        }
        Some(self.led_to(place(self.letters(), state, letter)))
    }

    // The element at the arc's place.
    fn weight(&self, state: u16, letter: u8) -> Option<W>
        ensures meaning { meant W.kind result ≡ weight_at (view_table W.kind (viewed self.now)) state letter }
        ensures element { (x : W) → has_arc (view_table W.kind (viewed self.now)) state letter ≡ true → slice_get (viewed self.now).weights (place (width (viewed self.now)) state letter) ≡ Some x → result ≡ Some x }
    {
        if !self.has_arc(state, letter) {
            return None;
        }
        Some(self.led_by(place(self.letters(), state, letter)))
    }
}
