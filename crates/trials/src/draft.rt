use crate::element::Element;
use random::Random;
use std::alloc::{AllocError, Global};
use tables::Call;

// Where an arc or a start leads, and with which weight.
#[derive(Clone, Copy)]
pub(crate) struct Step<W> {
    to: u16,
    weight: W,
}

// A state with its arcs, by letter; none for one that is not drawn.
#[derive(Drop)]
pub(crate) struct Row<W> {
    accepting: bool,
    steps: Vec<Option<Step<W>>>,
}

// A table that is to be drawn.
#[derive(Drop)]
pub(crate) struct Draft<W> {
    letters: u8,
    rows: Vec<Row<W>>,
    start: Option<Step<W>>,
}

// A state that weighs most words as the factor times what another weighs them.
#[derive(Clone, Copy)]
struct Likeness<W> {
    of: u16,
    copy: u16,
    factor: W,
}

// How many of a hundred states are final, and of a hundred arcs not drawn.
#[derive(Clone, Copy)]
struct Shares {
    accepting: u16,
    undrawn: u16,
}

impl<W: Element> Draft<W> {
    // States of which each leads to later ones, and after them some that lead to one another; then copies of some.
    pub(crate) fn layered(
        random: &mut Random,
        letters: u8,
        alloc: Global,
    ) -> Result<Draft<W>, AllocError> {
        let first = random.between(0, 12);
        let count = first.saturating_add(random.between(1, 7));
        let undrawn = if random.chance(30) { 15 } else { 0 };
        let early = Shares {
            accepting: share(random),
            undrawn,
        };
        let late = Shares {
            accepting: share(random).saturating_mul(2),
            undrawn,
        };
        let mut rows = Vec::new(alloc);
        for state in 0..first {
            let next = state.saturating_add(1);
            let high = count.min(next.saturating_add(3));
            rows.push(drawn_row(random, letters, next, high, early, alloc)?)?;
        }
        for _ in first..count {
            rows.push(drawn_row(random, letters, first, count, late, alloc)?)?;
        }
        let start = Some(drawn_step(random, 0, 1));
        let mut draft = Draft {
            letters,
            rows,
            start,
        };
        let mut likenesses = Vec::new(alloc);
        for _ in 0..random.between(0, 10) {
            draft.add_copy(random, first, &mut likenesses, alloc)?;
        }
        Ok(draft)
    }

    // States that lead anywhere, at most so many.
    pub(crate) fn loose(
        random: &mut Random,
        letters: u8,
        most: u16,
        alloc: Global,
    ) -> Result<Draft<W>, AllocError> {
        let count = random.between(1, most.saturating_add(1));
        let shares = Shares {
            accepting: share(random),
            undrawn: random.between(0, 25),
        };
        let mut rows = Vec::new(alloc);
        for _ in 0..count {
            rows.push(drawn_row(random, letters, 0, count, shares, alloc)?)?;
        }
        let start = random.chance(97).then_some(drawn_step(random, 0, count));
        Ok(Draft {
            letters,
            rows,
            start,
        })
    }

    // No states.
    pub(crate) fn empty(letters: u8, alloc: Global) -> Draft<W> {
        Draft {
            letters,
            rows: Vec::new(alloc),
            start: None,
        }
    }

    // As many states as a book can have and five more, of which few are reached.
    pub(crate) fn crowded(random: &mut Random, alloc: Global) -> Result<Draft<W>, AllocError> {
        let shares = Shares {
            accepting: 30,
            undrawn: 0,
        };
        let mut rows = Vec::new(alloc);
        for state in 0u16..4100 {
            let low = if state < 4080 { 0 } else { 4090 };
            rows.push(drawn_row(random, 1, low, 4100, shares, alloc)?)?;
        }
        let start = Some(drawn_step(random, 0, 4095));
        Ok(Draft {
            letters: 1,
            rows,
            start,
        })
    }

    pub(crate) fn letters(&self) -> u8 {
        self.letters
    }

    pub(crate) fn states(&self) -> u16 {
        u16::try_from(self.rows.len()).unwrap_or(u16::MAX)
    }

    // Adds a copy of a state: its arcs with their weights times a factor on the left. Where an arc leads to a state that has a copy
    // itself, it may lead there, with a weight that keeps the likeness. The copy may be final where the state is not, and seldom has
    // another weight. Some arcs are led to the copy.
    fn add_copy(
        &mut self,
        random: &mut Random,
        first: u16,
        likenesses: &mut Vec<Likeness<W>>,
        alloc: Global,
    ) -> Result<(), AllocError> {
        let copy = self.states();
        let of = random.between(0, copy);
        let factor = W::drawn(random);
        let Some(row) = self.rows.get(usize::from(of)) else {
            return Ok(());
        };
        let mut steps = Vec::new(alloc);
        for step in row.steps.iter() {
            let step = step.map(|step| Step {
                to: step.to,
                weight: factor.times(step.weight),
            });
            steps.push(alike(random, step, likenesses))?;
        }
        if random.chance(10) {
            change(random, &mut steps);
        }
        let accepting = row.accepting != random.chance(50);
        self.rows.push(Row { accepting, steps })?;
        likenesses.push(Likeness { of, copy, factor })?;
        let high = if random.chance(70) {
            first.min(of)
        } else {
            copy
        };
        for _ in 0..random.between(1, 4) {
            self.lead(random, high, copy);
        }
        Ok(())
    }

    // Leads an arc of a state below `high` to a state.
    fn lead(&mut self, random: &mut Random, high: u16, to: u16) {
        let from = random.between(0, high);
        let letter = random.letter(self.letters);
        let weight = W::drawn(random);
        if let Some(row) = self.rows.get_mut(usize::from(from)) {
            if let Some(step) = row.steps.get_mut(usize::from(letter)) {
                *step = Some(Step { to, weight });
            }
        }
    }

    // The calls that draw it. Where there is noise there are others among them: some that a book refuses, a start before the planned one, and
    // arcs, of which one that comes before the planned arc of its state and letter stays in place of it.
    pub(crate) fn calls(
        &self,
        random: &mut Random,
        alloc: Global,
    ) -> Result<Vec<Call<W>>, AllocError> {
        let noise = if random.chance(40) { 10 } else { 0 };
        let mut calls = Vec::new(alloc);
        if random.chance(noise) {
            calls.push(Call::Rule { letters: 0 })?;
            calls.push(Call::Rule { letters: 65 })?;
        }
        calls.push(Call::Rule {
            letters: self.letters,
        })?;
        for row in self.rows.iter() {
            calls.push(Call::State {
                accepting: row.accepting,
            })?;
            if random.chance(noise) {
                calls.push(Call::Rule { letters: 1 })?;
            }
        }
        for (row, from) in self.rows.iter().zip(0u16..=u16::MAX) {
            for (step, letter) in row.steps.iter().zip(0u8..=u8::MAX) {
                if random.chance(noise) {
                    calls.push(any_arc(random, self.letters, self.states()))?;
                }
                if let Some(step) = *step {
                    calls.push(Call::Arc {
                        from,
                        letter,
                        to: step.to,
                        weight: step.weight,
                    })?;
                }
            }
        }
        if random.chance(noise) {
            let state = random.between(0, self.states().saturating_add(2));
            let weight = W::drawn(random);
            calls.push(Call::Start { state, weight })?;
        }
        if let Some(start) = self.start {
            calls.push(Call::Start {
                state: start.to,
                weight: start.weight,
            })?;
        }
        Ok(calls)
    }
}

// A list of calls that follows no plan.
pub(crate) fn any_calls<W: Element>(
    random: &mut Random,
    alloc: Global,
) -> Result<Vec<Call<W>>, AllocError> {
    let mut calls = Vec::new(alloc);
    for _ in 0..random.between(0, 60) {
        calls.push(match random.between(0, 12) {
            0 => Call::Rule {
                letters: random.letter(4),
            },
            1 | 2 => Call::State {
                accepting: random.chance(40),
            },
            3 => Call::Start {
                state: random.between(0, 9),
                weight: W::drawn(random),
            },
            _ => any_arc(random, 2, 7),
        })?;
    }
    Ok(calls)
}

// An arc that mostly is one of so many states and letters.
fn any_arc<W: Element>(random: &mut Random, letters: u8, states: u16) -> Call<W> {
    Call::Arc {
        from: random.between(0, states.saturating_add(1)),
        letter: random.letter(letters.saturating_add(1)),
        to: random.between(0, states.saturating_add(1)),
        weight: W::drawn(random),
    }
}

// How many of a hundred states are final, in some part of a table.
fn share(random: &mut Random) -> u16 {
    match random.between(0, 9) {
        0 => 0,
        1 => 10,
        2 => 50,
        _ => 30,
    }
}

// A step to a state from `low` to below `high`.
fn drawn_step<W: Element>(random: &mut Random, low: u16, high: u16) -> Step<W> {
    Step {
        to: random.between(low, high),
        weight: W::drawn(random),
    }
}

// A state whose arcs lead to states from `low` to below `high`.
fn drawn_row<W: Element>(
    random: &mut Random,
    letters: u8,
    low: u16,
    high: u16,
    shares: Shares,
    alloc: Global,
) -> Result<Row<W>, AllocError> {
    let mut steps = Vec::new(alloc);
    for _ in 0..letters {
        let drawn = !random.chance(shares.undrawn);
        let step = drawn_step(random, low, high);
        steps.push(drawn.then_some(step))?;
    }
    Ok(Row {
        accepting: random.chance(shares.accepting),
        steps,
    })
}

// The step, or one to a copy of its target that weighs most words the same.
fn alike<W: Element>(
    random: &mut Random,
    step: Option<Step<W>>,
    likenesses: &[Likeness<W>],
) -> Option<Step<W>> {
    let step = step?;
    for likeness in likenesses.iter() {
        if likeness.of == step.to && random.chance(50) {
            return Some(Step {
                to: likeness.copy,
                weight: step.weight.times(likeness.factor.inverse()),
            });
        }
    }
    Some(step)
}

// Gives one step another weight.
fn change<W: Element>(random: &mut Random, steps: &mut [Option<Step<W>>]) {
    let place = random.between(0, 3);
    let weight = W::drawn(random);
    if let Some(Some(step)) = steps.get_mut(usize::from(place)) {
        step.weight = weight;
    }
}
