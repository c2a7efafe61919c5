ghost use Rattle.std.specs.Prelude.{◌≡◌, length, IfOk};

use crate::table::Table;
use std::alloc::{AllocError, Global};
use std::collections::BTreeSet;
use weights::Weight;

// Of m states: a word of m letters or more passes a state twice, and the letters between can be left out or said again. So infinitely
// many words lead to a state, or are accepted from it, exactly where one of m to 2m - 1 letters does or is.

// The states that words of exactly one letter more lead to.
fn led<W: Weight>(
    table: &Table<W>,
    states: &BTreeSet<usize>,
    alloc: Global,
) -> Result<BTreeSet<usize>, AllocError> {
    let mut targets = BTreeSet::new(alloc);
    for state in states.iter() {
        for letter in 0..table.letters {
            if let Some(arc) = table.arc(*state, letter) {
                targets.insert(arc.target)?;
            }
        }
    }
    Ok(targets)
}

// For each state whether infinitely many words lead to it.
pub(crate) fn kernel<W: Weight>(table: &Table<W>, alloc: Global) -> Result<Vec<bool>, AllocError>
    ensures { IfOk result (λ v. length v.items ≡ length table.now.states.items) }
{
    let count = table.states.len();
    let mut states = BTreeSet::new(alloc);
    states.insert(table.start)?;
    for _ in 0..count {
        states = led(table, &states, alloc)?;
    }
    let mut kernel = BTreeSet::new(alloc);
    for _ in 0..count {
        for state in states.iter() {
            kernel.insert(*state)?;
        }
        states = led(table, &states, alloc)?;
    }
    belonging(&kernel, count, alloc)
}

// For each of so many states whether it belongs to a set.
fn belonging(set: &BTreeSet<usize>, count: usize, alloc: Global) -> Result<Vec<bool>, AllocError>
    ensures { IfOk result (λ v. length v.items ≡ count) }
{
    let mut belonging = Vec::new(alloc);
    for state in 0..count {
        belonging.push(set.contains(&state))?;
    }
    Ok(belonging)
}

// For each length below 2m the states from which a word of exactly that length is accepted.
pub(crate) fn accepting<W: Weight>(
    table: &Table<W>,
    alloc: Global,
) -> Result<Vec<BTreeSet<usize>>, AllocError> {
    let mut lengths = Vec::new(alloc);
    let mut states = BTreeSet::new(alloc);
    for (number, state) in table.states.iter().enumerate() {
        if state.is_final {
            states.insert(number)?;
        }
    }
    for _ in 0..table.states.len().saturating_mul(2) {
        let mut before = BTreeSet::new(alloc);
        for (number, state) in table.states.iter().enumerate() {
            for arc in state.arcs.iter() {
                if states.contains(&arc.target) {
                    before.insert(number)?;
                }
            }
        }
        lengths.push(states)?;
        states = before;
    }
    Ok(lengths)
}

// The length, from m to 2m - 1, of a word accepted from a state; none where only finitely many words are accepted from it.
pub(crate) fn long_word(
    accepting: &[BTreeSet<usize>],
    count: usize,
    state: usize,
) -> Option<usize> {
    for (length, states) in accepting.iter().enumerate() {
        if length >= count && states.contains(&state) {
            return Some(length);
        }
    }
    None
}

// For each of so many states whether infinitely many words are accepted from it.
pub(crate) fn co_kernel(
    accepting: &[BTreeSet<usize>],
    count: usize,
    alloc: Global,
) -> Result<Vec<bool>, AllocError>
    ensures { IfOk result (λ v. length v.items ≡ count) }
{
    let mut co_kernel = Vec::new(alloc);
    for state in 0..count {
        co_kernel.push(long_word(accepting, count, state).is_some())?;
    }
    Ok(co_kernel)
}
