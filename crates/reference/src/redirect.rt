ghost use Rattle.std.specs.Prelude.{◌≡◌, ◌<◌, ◌⊎◌, length, IfOk, IfSome, IsSome};
ghost use Rattle.std.specs.List.{All, Contains};
ghost use Rattle.reference.specs.Redirection.{IsKept, Kept, Redirects};

use crate::almost::almost_factor;
use crate::push::Pushes;
use crate::table::{Arc, Table};
use std::alloc::{AllocError, Global};
use std::collections::BTreeSet;
use weights::Weight;

// For each state of a least table its representative and the factor towards it; and the states that are not redirected, in order.
#[derive(Drop)]
pub(crate) struct Redirection<W> {
    pub(crate) representatives: Vec<usize>,
    pub(crate) factors: Vec<W>,
    pub(crate) kept: Vec<usize>,
}

impl<W: Weight> Redirection<W> {
    pub(crate) fn of(
        least: &Table<W>,
        accepting: &[BTreeSet<usize>],
        kernel: &[bool],
        alloc: Global,
    ) -> Result<Redirection<W>, AllocError>
        requires { length kernel.now ≡ length least.now.states.items }
        ensures { IfOk result (Redirects (length least.now.states.items)) }
    {
        let pushes = Pushes::of(least, alloc)?;
        let mut representatives = Vec::new(alloc);
        let mut factors = Vec::new(alloc);
        for state in 0..least.states.len() {
            let choice = representative(
                least,
                &pushes,
                accepting,
                kernel,
                state,
                &representatives,
                alloc,
            )?;
            representatives.push(choice.target)?;
            factors.push(choice.weight)?;
        }
        let kept = kept_states(kernel, &representatives, alloc)?;
        Ok(Redirection {
            representatives,
            factors,
            kept,
        })
    }

    // The number of a state in the hyper table, if it is kept.
    fn number(&self, state: usize) -> Option<usize>
        ensures number { IfSome result (λ number. number < length self.now.kept.items) }
        ensures kept { Contains self.now.kept.items state → IsSome result }
    {
        self.kept.iter().position(|other| *other == state)
    }

    // An arc of the least table, or its start, as the hyper table has it.
    pub(crate) fn redirected(&self, arc: Arc<W>) -> Arc<W>
        requires inside { arc.target < length self.now.representatives.items }
        requires factors { length self.now.factors.items ≡ length self.now.representatives.items }
        requires stand { All (Contains self.now.kept.items) self.now.representatives.items }
        ensures { result.target < length self.now.kept.items }
    {
        if let Some(target) = self.number(arc.target) {
            return Arc {
                target,
                weight: arc.weight,
            };
        }
        let representative = self.representatives[arc.target];
        Arc {
            target: self.number(representative).unwrap(),
            weight: arc.weight.times(self.factors[arc.target]),
        }
    }
}

// The representative of a state, with the factor towards it: of the states that it is almost-equivalent to the smallest kernel state,
// else the smallest. The representatives of the states before it are given. A state whose representative is another is not tried, since
// that one would do too, and is kernel or smaller.
fn representative<W: Weight>(
    least: &Table<W>,
    pushes: &Pushes<W>,
    accepting: &[BTreeSet<usize>],
    kernel: &[bool],
    state: usize,
    earlier: &[usize],
    alloc: Global,
) -> Result<Arc<W>, AllocError>
    requires state { state < length kernel.now }
    requires earlier { length earlier.now ≡ state }
    ensures inside { IfOk result (λ choice. choice.target < length kernel.now) }
    ensures stands { IfOk result (λ choice. IsKept kernel.now earlier.now choice.target ⊎ (choice.target ≡ state)) }
{
    for (target, is_kernel) in kernel.iter().enumerate() {
        if *is_kernel {
            if let Some(weight) = almost_factor(least, pushes, accepting, state, target, alloc)? {
                return Ok(Arc { target, weight });
            }
        }
    }
    for (target, representative) in earlier.iter().enumerate() {
        if *representative == target {
            if let Some(weight) = almost_factor(least, pushes, accepting, state, target, alloc)? {
                return Ok(Arc { target, weight });
            }
        }
    }
    Ok(Arc {
        target: state,
        weight: W::one(),
    })
}

// The states that are kernel or their own representative.
fn kept_states(
    kernel: &[bool],
    representatives: &[usize],
    alloc: Global,
) -> Result<Vec<usize>, AllocError>
    requires { length kernel.now ≡ length representatives.now }
    ensures { IfOk result (λ kept. Kept kernel.now representatives.now kept.items) }
{
    let mut kept = Vec::new(alloc);
    for (state, representative) in representatives.iter().enumerate() {
        if *representative == state || kernel[state] {
            kept.push(state)?;
        }
    }
    Ok(kept)
}
