use crate::compare::{
    Difference, Part, Wanted, answers_difference, size_difference, table_difference,
};
use crate::element::Element;
use crate::memories::Memories;
use std::alloc::{AllocError, Global};
use std::collections::BTreeMap;
use tables::{Call, DrawnSize, Made, Source};
use weights::Refusal;

// Where an arc or the start leads, and with which weight.
#[derive(Clone, Copy)]
struct Step<W> {
    to: u16,
    weight: W,
}

// What a list of calls on a new book comes to, by another reading of the rules, which goes by the order of the calls: each call gets its
// answer, and of each state and letter the first arc that is taken stays.
#[derive(Drop)]
pub(crate) struct Sketch<W> {
    // the places of the memories that the book is drawn in
    places: usize,
    marks: usize,
    letters: u8,
    finals: Vec<bool>,
    arcs: BTreeMap<(u16, u8), Step<W>>,
    start: Option<Step<W>>,
    // for each call the refusal that it is to get
    refusals: Vec<Option<Refusal>>,
    // how many arcs were drawn again, and how many of these with another target or weight
    pub(crate) redrawn: usize,
    pub(crate) redrawn_otherwise: usize,
}

impl<W: Element> Sketch<W> {
    // The sketch of a list of calls on a new book over the memories.
    pub(crate) fn of(
        calls: &[Call<W>],
        memories: &Memories<W>,
        alloc: Global,
    ) -> Result<Sketch<W>, AllocError> {
        let mut sketch = Sketch {
            places: memories.targets.len().min(memories.weights.len()),
            marks: memories.marks.len(),
            letters: 1,
            finals: Vec::new(alloc),
            arcs: BTreeMap::new(alloc),
            start: None,
            refusals: Vec::new(alloc),
            redrawn: 0,
            redrawn_otherwise: 0,
        };
        for call in calls.iter() {
            let refusal = sketch.refusal(*call);
            sketch.refusals.push(refusal)?;
            match refusal {
                None => sketch.take(*call)?,
                Some(refusal) => sketch.count_redrawn(*call, refusal),
            }
        }
        Ok(sketch)
    }

    // How many states are drawn.
    pub(crate) fn states(&self) -> u16 {
        u16::try_from(self.finals.len()).unwrap_or(u16::MAX)
    }

    pub(crate) fn calls(&self) -> usize {
        self.refusals.len()
    }

    // How many calls are refused.
    pub(crate) fn refused(&self) -> usize {
        self.refusals
            .iter()
            .filter(|refusal| refusal.is_some())
            .count()
    }

    // Whether a state is refused.
    pub(crate) fn is_full(&self) -> bool {
        self.refusals
            .iter()
            .any(|refusal| *refusal == Some(Refusal::NoRoom))
    }

    // The refusal that a call meets.
    fn refusal(&self, call: Call<W>) -> Option<Refusal> {
        match call {
            Call::Rule { letters } => {
                let is_free = self.states() == 0 && (1..=64).contains(&letters);
                (!is_free).then_some(Refusal::Letters)
            },
            Call::State { .. } => (!self.has_room()).then_some(Refusal::NoRoom),
            Call::Arc {
                from,
                letter,
                to,
                ..
            } => {
                if from >= self.states() {
                    return Some(Refusal::NoState);
                }
                if letter >= self.letters {
                    return Some(Refusal::NoLetter);
                }
                if to >= self.states() {
                    return Some(Refusal::NoState);
                }
                self.arcs
                    .contains_key(&(from, letter))
                    .then_some(Refusal::SecondArc)
            },
            Call::Start { state, .. } => (state >= self.states()).then_some(Refusal::NoState),
        }
    }

    // Whether one more state has room.
    fn has_room(&self) -> bool {
        let states = self.finals.len().saturating_add(1);
        let arcs = states.saturating_mul(usize::from(self.letters));
        states <= 4095 && states <= self.marks && arcs < self.places
    }

    // Makes a call that is not refused.
    fn take(&mut self, call: Call<W>) -> Result<(), AllocError> {
        match call {
            Call::Rule { letters } => self.letters = letters,
            Call::State { accepting } => self.finals.push(accepting)?,
            Call::Arc {
                from,
                letter,
                to,
                weight,
            } => {
                self.arcs.insert((from, letter), Step { to, weight })?;
            },
            Call::Start { state, weight } => self.start = Some(Step { to: state, weight }),
        }
        Ok(())
    }

    // Counts a call that is refused, if it is an arc that is drawn again.
    fn count_redrawn(&mut self, call: Call<W>, refusal: Refusal) {
        let Call::Arc {
            from,
            letter,
            to,
            weight,
        } = call
        else {
            return;
        };
        if refusal != Refusal::SecondArc {
            return;
        }
        self.redrawn = self.redrawn.saturating_add(1);
        if let Some(first) = self.arcs.get(&(from, letter)) {
            if first.to != to || !first.weight.same(weight) {
                self.redrawn_otherwise = self.redrawn_otherwise.saturating_add(1);
            }
        }
    }

    // The difference between a size that was told beforehand and that of the sketch.
    pub(crate) fn size_difference(&self, size: DrawnSize) -> Option<Difference> {
        size_difference(size, self.letters, self.states())
    }

    // The first difference between the answers of a list and those of the sketch.
    pub(crate) fn answers_difference(&self, made: &[Made<W>]) -> Option<Difference> {
        answers_difference(made, &self.refusals)
    }

    // The first difference between a closed book and the sketch.
    pub(crate) fn table_difference<S: Source<W>>(
        &self,
        closed: &S,
        alloc: Global,
    ) -> Result<Option<Difference>, AllocError> {
        let size = DrawnSize {
            letters: closed.letters(),
            states: closed.states().saturating_sub(1),
        };
        let drawn = Memories::of(closed, alloc)?;
        Ok(
            self.size_difference(size)
                .or(table_difference(&drawn, &self.wanted(alloc)?)),
        )
    }

    // The table of the sketch. What is not drawn leads to the off state with weight one, and so does the off state.
    fn wanted(&self, alloc: Global) -> Result<Wanted<W>, AllocError> {
        let off = Step {
            to: self.states(),
            weight: W::one(),
        };
        let mut wanted = Wanted::new(alloc);
        let start = self.start.unwrap_or(off);
        wanted.add_step(usize::from(start.to), start.weight)?;
        for from in 0..=self.states() {
            for letter in 0..self.letters {
                let step = self.arcs.get(&(from, letter)).copied().unwrap_or(off);
                wanted.add_step(usize::from(step.to), step.weight)?;
            }
        }
        for accepting in self.finals.iter() {
            wanted.add_mark(u8::from(*accepting))?;
        }
        wanted.add_mark(0)?;
        Ok(wanted)
    }
}
