use crate::equivalent::Claim;
use crate::kernel::long_word;
use crate::push::Pushes;
use crate::table::{Arc, Table, empty_word};
use std::alloc::{AllocError, Global};
use std::collections::{BTreeMap, BTreeSet};
use weights::Weight;

// What a claim comes to for words that have so many letters more: a factor, or none where several are claimed of the two states.
#[derive(Clone, Copy)]
struct Rest<W> {
    first: usize,
    second: usize,
    factor: Option<W>,
    letters: usize,
}

// The factor of the first state towards the second, if they are almost-equivalent; one where only finitely many words are accepted
// from them. They are exactly where all that is claimed of words of m letters is true: states that agree from some length on do so from
// m - 1 letters on.
pub(crate) fn almost_factor<W: Weight>(
    table: &Table<W>,
    pushes: &Pushes<W>,
    accepting: &[BTreeSet<usize>],
    first: usize,
    second: usize,
    alloc: Global,
) -> Result<Option<W>, AllocError> {
    let count = table.states.len();
    let factor = match (
        long_word(accepting, count, first),
        long_word(accepting, count, second),
    ) {
        (None, None) => return Ok(Some(W::one())),
        (Some(_), Some(length)) => only_factor(table, accepting, first, second, length),
        _ => None,
    };
    let Some(factor) = factor else {
        return Ok(None);
    };
    let claim = Claim {
        first,
        second,
        factor,
    };
    Ok(holds_later(table, pushes, claim, alloc)?.then_some(factor))
}

// The only factor that can be: what the first word of so many letters that is accepted from the second state weighs from the first,
// times the inverse of what it weighs from the second.
fn only_factor<W: Weight>(
    table: &Table<W>,
    accepting: &[BTreeSet<usize>],
    first: usize,
    second: usize,
    length: usize,
) -> Option<W> {
    let mut left = empty_word::<W>(first);
    let mut right = empty_word::<W>(second);
    for rest in accepting.get(..length)?.iter().rev() {
        let letter = first_letter(table, rest, right)?;
        left = table.follow(left, letter)?;
        right = table.follow(right, letter)?;
    }
    (table.is_final(left.target) && table.is_final(right.target)).then(|| left
        .weight
        .times(right.weight.inverse()))
}

// The first letter by which a word leads to one of the states.
fn first_letter<W: Weight>(table: &Table<W>, states: &BTreeSet<usize>, word: Arc<W>) -> Option<u8> {
    for letter in 0..table.letters {
        let longer = table.follow(word, letter)?;
        if states.contains(&longer.target) {
            return Some(letter);
        }
    }
    None
}

// Whether all that a claim claims of words of m letters is true. The words are tried letter by letter, and what was claimed before is
// left out.
fn holds_later<W: Weight>(
    table: &Table<W>,
    pushes: &Pushes<W>,
    claim: Claim<W>,
    alloc: Global,
) -> Result<bool, AllocError> {
    let mut met = BTreeMap::new(alloc);
    let mut rests = Vec::new(alloc);
    rests.push(Rest {
        first: claim.first,
        second: claim.second,
        factor: Some(claim.factor),
        letters: table.states.len(),
    })?;
    // no rest is tried more than twice: with its first factor, and where there are several
    for _ in 0..usize::MAX {
        let Some(rest) = rests.pop() else {
            break;
        };
        if rest.is_sure(pushes) {
            continue;
        }
        if rest.letters == 0 {
            if !rest.holds(table, pushes, alloc)? {
                return Ok(false);
            }
            continue;
        }
        let place = (rest.first, rest.second, rest.letters);
        let joined = match met.get(&place).copied() {
            Some(earlier) => one_factor(earlier, rest.factor),
            None => rest.factor,
        };
        let is_new = match met.insert(place, joined)? {
            Some(earlier) => earlier.is_some() && joined.is_none(),
            None => true,
        };
        if is_new {
            add_longer(table, rest.with(joined), &mut rests)?;
        }
    }
    Ok(true)
}

impl<W: Weight> Rest<W> {
    fn with(self, factor: Option<W>) -> Rest<W> {
        Rest { factor, ..self }
    }

    // As a claim, with some factor where several are claimed.
    fn claim(self) -> Claim<W> {
        Claim {
            first: self.first,
            second: self.second,
            factor: self.factor.unwrap_or(W::one()),
        }
    }

    // Whether it is plainly true: no word is accepted from either state, or they are one state and the factor is one.
    fn is_sure(self, pushes: &Pushes<W>) -> bool {
        let is_one = match self.factor {
            Some(factor) => factor.same(W::one()),
            None => false,
        };
        self.claim().is_idle(pushes) || self.first == self.second && is_one
    }

    // Whether it is true of all words. Several factors cannot be, where a word is accepted.
    fn holds(
        self,
        table: &Table<W>,
        pushes: &Pushes<W>,
        alloc: Global,
    ) -> Result<bool, AllocError> {
        Ok(self.factor.is_some() && self.claim().holds(table, pushes, alloc)?)
    }
}

// Adds what is claimed after one letter. Several factors stay several after each letter.
fn add_longer<W: Weight>(
    table: &Table<W>,
    rest: Rest<W>,
    rests: &mut Vec<Rest<W>>,
) -> Result<(), AllocError> {
    for letter in 0..table.letters {
        if let Some(claim) = rest.claim().after(table, letter) {
            rests.push(Rest {
                first: claim.first,
                second: claim.second,
                factor: rest.factor.and(Some(claim.factor)),
                letters: rest.letters.saturating_sub(1),
            })?;
        }
    }
    Ok(())
}

// The factor that two claims have in common.
fn one_factor<W: Weight>(left: Option<W>, right: Option<W>) -> Option<W> {
    let (left, right) = (left?, right?);
    left.same(right).then_some(left)
}
