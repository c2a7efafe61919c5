use crate::table::{Arc, Table, empty_word};
use std::alloc::{AllocError, Global};
use std::collections::BTreeSet;
use weights::Weight;

// The pushes of all states, none for dead ones.
#[derive(Drop)]
pub(crate) struct Pushes<W>(Vec<Option<W>>);

impl<W: Weight> Pushes<W> {
    pub(crate) fn of(table: &Table<W>, alloc: Global) -> Result<Pushes<W>, AllocError> {
        let mut pushes = Vec::new(alloc);
        for state in 0..table.states.len() {
            pushes.push(push(table, state, alloc)?)?;
        }
        Ok(Pushes(pushes))
    }

    pub(crate) fn get(&self, state: usize) -> Option<W> {
        *self.0.get(state)?
    }

    pub(crate) fn is_dead(&self, state: usize) -> bool {
        self.get(state).is_none()
    }
}

// The weight of the smallest word accepted from a state. The words are tried in their order, shorter first and then letter by letter;
// one that leads where an earlier one led is not made longer, since the earlier one would come first with the same letters added.
fn push<W: Weight>(table: &Table<W>, state: usize, alloc: Global) -> Result<Option<W>, AllocError> {
    let mut met = BTreeSet::new(alloc);
    let mut words = Vec::new(alloc);
    met.insert(state)?;
    words.push(empty_word::<W>(state))?;
    for _ in 0..table.states.len() {
        if words.is_empty() {
            break;
        }
        let mut longer = Vec::new(alloc);
        for word in words.iter() {
            if table.is_final(word.target) {
                return Ok(Some(word.weight));
            }
            lengthen(table, *word, &mut met, &mut longer)?;
        }
        words = longer;
    }
    Ok(None)
}

// Adds the words that are one letter longer and lead to a state that is not yet met.
fn lengthen<W: Weight>(
    table: &Table<W>,
    word: Arc<W>,
    met: &mut BTreeSet<usize>,
    longer: &mut Vec<Arc<W>>,
) -> Result<(), AllocError> {
    for letter in 0..table.letters {
        if let Some(word) = table.follow(word, letter) {
            if met.insert(word.target)? {
                longer.push(word)?;
            }
        }
    }
    Ok(())
}
