use crate::push::Pushes;
use crate::table::Table;
use std::alloc::{AllocError, Global};
use std::collections::BTreeMap;
use weights::Weight;

// The claim that the weight from the first state is the factor times that from the second, for every word.
#[derive(Clone, Copy)]
pub(crate) struct Claim<W> {
    pub(crate) first: usize,
    pub(crate) second: usize,
    pub(crate) factor: W,
}

impl<W: Weight> Claim<W> {
    // What it claims of the words that begin with a letter, and so of the two states that this leads to.
    pub(crate) fn after(self, table: &Table<W>, letter: u8) -> Option<Claim<W>> {
        let first = table.arc(self.first, letter)?;
        let second = table.arc(self.second, letter)?;
        Some(Claim {
            first: first.target,
            second: second.target,
            factor: first
                .weight
                .inverse()
                .times(self.factor)
                .times(second.weight),
        })
    }

    // Whether it is true of the empty word.
    fn holds_here(self, table: &Table<W>) -> bool {
        let is_final = table.is_final(self.first);
        is_final == table.is_final(self.second) && (!is_final || self.factor.same(W::one()))
    }

    // Whether no word is accepted from either state, so that the claim holds whatever the factor.
    pub(crate) fn is_idle(self, pushes: &Pushes<W>) -> bool {
        pushes.is_dead(self.first) && pushes.is_dead(self.second)
    }

    // Whether it is true: all that it claims is true of the empty word, and no two factors are claimed of one pair that is not idle.
    pub(crate) fn holds(
        self,
        table: &Table<W>,
        pushes: &Pushes<W>,
        alloc: Global,
    ) -> Result<bool, AllocError> {
        let mut met = BTreeMap::new(alloc);
        let mut claims = Vec::new(alloc);
        claims.push(self)?;
        // each round but the last meets a new pair
        for _ in 0..table.states.len().saturating_mul(table.states.len()) {
            let mut further = Vec::new(alloc);
            for claim in claims.iter() {
                if claim.is_idle(pushes) {
                    continue;
                }
                if !claim.holds_here(table) {
                    return Ok(false);
                }
                let pair = (claim.first, claim.second);
                match met.get(&pair).copied() {
                    Some(factor) if claim.factor.same(factor) => continue,
                    Some(_) => return Ok(false),
                    None => {
                        met.insert(pair, claim.factor)?;
                    },
                }
                add_further(table, *claim, &mut further)?;
            }
            if further.is_empty() {
                break;
            }
            claims = further;
        }
        Ok(true)
    }
}

fn add_further<W: Weight>(
    table: &Table<W>,
    claim: Claim<W>,
    further: &mut Vec<Claim<W>>,
) -> Result<(), AllocError> {
    for letter in 0..table.letters {
        if let Some(claim) = claim.after(table, letter) {
            further.push(claim)?;
        }
    }
    Ok(())
}

// Whether two states are equivalent. Then their smallest accepted words are one word, which leaves a single factor.
pub(crate) fn are_equivalent<W: Weight>(
    table: &Table<W>,
    pushes: &Pushes<W>,
    first: usize,
    second: usize,
    alloc: Global,
) -> Result<bool, AllocError> {
    let (Some(left), Some(right)) = (pushes.get(first), pushes.get(second)) else {
        return Ok(pushes.is_dead(first) && pushes.is_dead(second));
    };
    let claim = Claim {
        first,
        second,
        factor: left.times(right.inverse()),
    };
    claim.holds(table, pushes, alloc)
}
