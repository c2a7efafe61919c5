ghost use Rattle.std.specs.Prelude.{◌≡◌, ◌<◌, IfOk};
ghost use Rattle.weights.specs.Refusal.{outcome, judged};
ghost use Rattle.weights.specs.Codes.{within};
ghost use Rattle.tables.specs.Table.{has_arc, meant, weight_at};
ghost use Rattle.sources.specs.Ring.{ring_verdict, ring_states, next, ring_table, ring_lawful, WeighsAsRing};

use tables::{Source, is_letter_count, letters_read};
use weights::{Refusal, Weight};

// States in a ring, which every letter leads round with one weight. Counts are checked where a question is asked.
#[derive(Clone, Copy)]
pub struct Ring<W> {
    states: u16,
    letters: u8,
    weight: W,
}

impl<W: Weight> Ring<W> {
    // The ring of that many states and letters. Refused: letters by 1, then states by 8.
    pub fn new(states: u16, letters: u8, weight: W) -> Result<Ring<W>, Refusal>
        ensures answer { outcome result ≡ judged (ring_verdict states letters) (record { states = states; letters = letters; weight = weight }) }
        ensures weighs { IfOk result (λ ring. WeighsAsRing W.kind.group states letters (W.kind.mean weight) (ring_table W.kind ring)) }
    {
        if !is_letter_count(letters) {
            return Err(Refusal::Letters);
        }
        if !(1..=4096).contains(&states) {
            return Err(Refusal::StateCount);
        }
        Ok(Ring {
            states,
            letters,
            weight,
        })
    }

    // Whether there are such a state and such a letter.
    fn has_arc(&self, state: u16, letter: u8) -> bool
        ensures { result ≡ has_arc (ring_table W.kind self.now) state letter }
    {
        state < self.states() && letter < self.letters()
    }

    // The state that a state leads to.
    fn next(&self, state: u16) -> u16
        requires { state < ring_states self.now }
        ensures { result ≡ next (ring_states self.now) state }
    {
        if state + 1 < self.states() {
            state + 1
        } else {
            0
        }
    }
}

impl<W: Weight> Source<W> for Ring<W> {
    ghost table = { λ r K. ring_table K r };

    ghost lawful = { λ r K. ring_lawful K r };

    fn states(&self) -> u16 {
        self.states.clamp(1, 4096)
    }

    fn letters(&self) -> u8 {
        letters_read(self.letters)
    }

    fn start(&self) -> u16 {
        0
    }

    fn start_weight(&self) -> W {
        W::one()
    }

    fn is_final(&self, state: u16) -> Option<bool> {
        (state < self.states()).then_some(state == 0)
    }

    fn target(&self, state: u16, letter: u8) -> Option<u16> {
        self.has_arc(state, letter).then(|| self.next(state))
    }

    // The element that the ring was made with.
    fn weight(&self, state: u16, letter: u8) -> Option<W>
        ensures meaning { meant W.kind result ≡ weight_at (ring_table W.kind self.now) state letter }
        ensures element { result ≡ within (has_arc (ring_table W.kind self.now) state letter) self.now.weight }
    {
        self.has_arc(state, letter).then_some(self.weight)
    }
}
