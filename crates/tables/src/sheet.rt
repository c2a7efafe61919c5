ghost use Rattle.std.specs.Prelude.{◌≡◌, ◌==◌, Some, true};
ghost use Rattle.weights.specs.Refusal.{outcome_as};
ghost use Rattle.tables.specs.Book.{laid, place};
ghost use Rattle.tables.specs.Held.{held};
ghost use Rattle.tables.specs.Table.{has_arc, meant, weight_at};
ghost use Rattle.tables.specs.Sheet.{sheet_of, drawn, width, is_drawn, led_to, led_by, HasElement, sheet_table, sheet_lawful};

use crate::memory::{UNSET, arc_place, element_in, get_or, has_places};
use crate::source::Source;
use crate::words::{is_letter_count, letters_read};
use weights::{Refusal, Weight};

// A table that three memories hold in the layout of a book. It has no invariant: each count and length is checked where an arc is read,
// so that a sheet means some lawful table whatever they are.
#[derive(Drop)]
pub struct Sheet<'a, W> {
    pub(crate) targets: &'a [u16],
    pub(crate) weights: &'a [W],
    pub(crate) marks: &'a [u8],
    pub(crate) letters: u8,
    pub(crate) count: u16,
}

impl<'a, W: Weight> Sheet<'a, W> {
    // The sheet of that many states and letters. Refused: letters by 1, then states by 8, then short memories by 6.
    pub fn new(
        targets: &'a [u16],
        weights: &'a [W],
        marks: &'a [u8],
        states: u16,
        letters: u8,
    ) -> Result<Sheet<'a, W>, Refusal>
        ensures { outcome_as held result ≡ sheet_of (laid targets.now weights.now marks.now letters states) }
    {
        if !is_letter_count(letters) {
            return Err(Refusal::Letters);
        }
        if states > 4095 {
            return Err(Refusal::StateCount);
        }
        if !has_places(targets, weights, marks, letters, states) {
            return Err(Refusal::ShortMemory);
        }
        Ok(Sheet {
            targets,
            weights,
            marks,
            letters,
            count: states,
        })
    }

    // How many states are drawn.
    fn drawn_states(&self) -> u16
        ensures { result ≡ drawn (held self.now) }
    {
        self.count.min(4095)
    }

    // Whether a state and a letter are of the table.
    fn has_arc(&self, state: u16, letter: u8) -> bool
        ensures { result ≡ has_arc (sheet_table W.kind (held self.now)) state letter }
    {
        state <= self.drawn_states() && letter < self.letters()
    }

    // Whether a state is the off state.
    fn is_off(&self, state: u16) -> bool
        ensures { result ≡ (state == drawn (held self.now)) }
    {
        state == self.drawn_states()
    }

    // Where the place leads: to the off state if to no state that is drawn.
    fn led_to(&self, at: usize) -> u16
        ensures { result ≡ led_to (held self.now) at }
    {
        get_or(self.targets, at, &UNSET).min(self.drawn_states())
    }

    // With which weight the place leads.
    fn led_by(&self, at: usize) -> W
        ensures meaning { W.kind.mean result ≡ led_by W.kind (held self.now) at }
        ensures element { (x : W) → HasElement (held self.now) at x → result ≡ x }
    {
        if self.is_off(self.led_to(at)) {
            W::one()
        } else {
            element_in(self.weights, at)
        }
    }
}

impl<W: Weight> Source<W> for Sheet<'_, W> {
    ghost table = { λ s K. sheet_table K (held s) };

    ghost lawful = { λ s K. sheet_lawful K (held s) };

    fn states(&self) -> u16 {
        self.drawn_states() + 1
    }

    fn letters(&self) -> u8 {
        letters_read(self.letters)
    }

    fn start(&self) -> u16 {
        self.led_to(0)
    }

    // The element at place 0, if that leads to a state that is drawn.
    fn start_weight(&self) -> W
        ensures meaning { W.kind.mean result ≡ (sheet_table W.kind (held self.now)).start_weight }
        ensures element { (x : W) → HasElement (held self.now) 0 x → result ≡ x }
    {
        self.led_by(0)
    }

    fn is_final(&self, state: u16) -> Option<bool> {
        let drawn = self.drawn_states();
        if state > drawn {
            return None;
        }
        Some(state < drawn && get_or(self.marks, usize::from(state), &0) % 2 == 1)
    }

    fn target(&self, state: u16, letter: u8) -> Option<u16> {
        if !self.has_arc(state, letter) {
            return None;
        }
        if self.is_off(state) {
            return Some(state);
        }
        Some(self.led_to(arc_place(self.letters(), state, letter)))
    }

    // The element at the arc's place, if that leads to a state that is drawn.
    fn weight(&self, state: u16, letter: u8) -> Option<W>
        ensures meaning { meant W.kind result ≡ weight_at (sheet_table W.kind (held self.now)) state letter }
        ensures element { (x : W) → is_drawn (held self.now) state letter ≡ true → HasElement (held self.now) (place (width (held self.now)) state letter) x → result ≡ Some x }
    {
        if !self.has_arc(state, letter) {
            return None;
        }
        if self.is_off(state) {
            return Some(W::one());
        }
        Some(self.led_by(arc_place(self.letters(), state, letter)))
    }
}
