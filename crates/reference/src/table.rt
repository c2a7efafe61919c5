ghost use Rattle.std.specs.Prelude.{◌≡◌, ◌<◌, length, IfOk};
ghost use Rattle.reference.specs.Closed.{ClosedState, Closed};

use std::alloc::{AllocError, Global};
use tables::Source;
use weights::Weight;

// Where a word leads, and with which weight; an arc, for a word of one letter.
#[derive(Clone, Copy)]
pub struct Arc<W> {
    pub target: usize,
    pub weight: W,
}

// A state with its arcs, by letter.
#[derive(Drop)]
pub struct State<W> {
    pub is_final: bool,
    pub arcs: Vec<Arc<W>>,
}

#[derive(Drop)]
pub struct Table<W> {
    pub letters: u8,
    pub start: usize,
    pub start_weight: W,
    pub states: Vec<State<W>>,
}

impl<W: Weight> State<W> {
    // A state of the table that a source means, question by question.
    fn of<S: Source<W>>(source: &S, state: u16, alloc: Global) -> Result<State<W>, AllocError>
        requires { state < (S.table source.now W.kind).states }
        ensures { IfOk result (ClosedState (S.table source.now W.kind).states (S.table source.now W.kind).letters) }
    {
        let mut arcs = Vec::new(alloc);
        for letter in 0..source.letters() {
            let target = source.target(state, letter).unwrap();
            let weight = source.weight(state, letter).unwrap();
            arcs.push(Arc {
                target: usize::from(target),
                weight,
            })?;
        }
        Ok(State {
            is_final: source.is_final(state) == Some(true),
            arcs,
        })
    }
}

impl<W: Weight> Table<W> {
    // The table that a source means.
    pub(crate) fn of<S: Source<W>>(source: &S, alloc: Global) -> Result<Table<W>, AllocError>
        ensures closed { IfOk result Closed }
        ensures states { IfOk result (λ t. length t.states.items ≡ (S.table source.now W.kind).states) }
        ensures letters { IfOk result (λ t. t.letters ≡ (S.table source.now W.kind).letters) }
    {
        let mut states = Vec::new(alloc);
        for state in 0..source.states() {
            states.push(State::of(source, state, alloc)?)?;
        }
        Ok(Table {
            letters: source.letters(),
            start: usize::from(source.start()),
            start_weight: source.start_weight(),
            states,
        })
    }

    pub(crate) fn is_final(&self, state: usize) -> bool {
        match self.states.get(state) {
            Some(state) => state.is_final,
            None => false,
        }
    }

    pub(crate) fn arc(&self, state: usize, letter: u8) -> Option<Arc<W>> {
        self.states
            .get(state)?
            .arcs
            .get(usize::from(letter))
            .copied()
    }

    // The arc of a state and a letter that a closed table has.
    pub(crate) fn arc_of(&self, state: usize, letter: u8) -> Arc<W>
        requires closed { Closed self.now }
        requires state { state < length self.now.states.items }
        requires letter { letter < self.now.letters }
        ensures { result.target < length self.now.states.items }
    {
        self.states[state].arcs[usize::from(letter)]
    }

    // A word with one letter more.
    pub(crate) fn follow(&self, word: Arc<W>, letter: u8) -> Option<Arc<W>> {
        let arc = self.arc(word.target, letter)?;
        Some(Arc {
            target: arc.target,
            weight: word.weight.times(arc.weight),
        })
    }
}

// The empty word.
pub(crate) fn empty_word<W: Weight>(state: usize) -> Arc<W> {
    Arc {
        target: state,
        weight: W::one(),
    }
}
