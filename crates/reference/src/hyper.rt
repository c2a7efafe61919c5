ghost use Rattle.std.specs.Prelude.{◌≡◌, ◌<◌, length, IfOk};
ghost use Rattle.reference.specs.Closed.{ClosedState, Closed};
ghost use Rattle.reference.specs.Fits.{Fits};
ghost use Rattle.reference.specs.Redirection.{Redirects};

use crate::kernel::{accepting, co_kernel, kernel};
use crate::least::least_table;
use crate::redirect::Redirection;
use crate::table::{Arc, State, Table};
use std::alloc::{AllocError, Global};
use tables::Source;
use weights::Weight;

// The tables of a source, and what is said of the states of its least table, by number.
#[derive(Drop)]
pub struct Compiled<W> {
    pub least: Table<W>,
    pub hyper: Table<W>,
    pub kernel: Vec<bool>,
    pub co_kernel: Vec<bool>,
    pub representatives: Vec<usize>,
    pub factors: Vec<W>,
    // the states that are not redirected, in order
    pub kept: Vec<usize>,
    pub kernel_count: usize,
    pub agreement: usize,
}

// The least and the hyper table of a source. Memory is all that can fail.
pub fn compile_by_definition<W: Weight, S: Source<W>>(
    source: &S,
    alloc: Global,
) -> Result<Compiled<W>, AllocError>
    ensures { IfOk result (Fits (S.table source.now W.kind).states (S.table source.now W.kind).letters) }
{
    let table = Table::of(source, alloc)?;
    let least = least_table(&table, alloc)?;
    let count = least.states.len();
    let kernel = kernel(&least, alloc)?;
    let accepting = accepting(&least, alloc)?;
    let co_kernel = co_kernel(&accepting, count, alloc)?;
    let redirection = Redirection::of(&least, &accepting, &kernel, alloc)?;
    let hyper = hyper_table(&least, &redirection, alloc)?;
    let kernel_count = kernel.iter().filter(|is_kernel| **is_kernel).count();
    let Redirection {
        representatives,
        factors,
        kept,
    } = redirection;
    Ok(Compiled {
        least,
        hyper,
        kernel,
        co_kernel,
        representatives,
        factors,
        kept,
        kernel_count,
        agreement: count.saturating_mul(2).saturating_sub(2),
    })
}

// The kept states of the least table, with their arcs redirected.
fn hyper_table<W: Weight>(
    least: &Table<W>,
    redirection: &Redirection<W>,
    alloc: Global,
) -> Result<Table<W>, AllocError>
    requires closed { Closed least.now }
    requires redirects { Redirects (length least.now.states.items) redirection.now }
    ensures closed { IfOk result Closed }
    ensures states { IfOk result (λ t. length t.states.items ≡ length redirection.now.kept.items) }
    ensures letters { IfOk result (λ t. t.letters ≡ least.now.letters) }
{
    let mut states = Vec::new(alloc);
    for state in redirection.kept.iter() {
        states.push(redirected_state(least, redirection, *state, alloc)?)?;
    }
    let start = redirection.redirected(Arc {
        target: least.start,
        weight: least.start_weight,
    });
    Ok(Table {
        letters: least.letters,
        start: start.target,
        start_weight: start.weight,
        states,
    })
}

// A state of the least table with its arcs redirected.
fn redirected_state<W: Weight>(
    least: &Table<W>,
    redirection: &Redirection<W>,
    state: usize,
    alloc: Global,
) -> Result<State<W>, AllocError>
    requires closed { Closed least.now }
    requires redirects { Redirects (length least.now.states.items) redirection.now }
    requires state { state < length least.now.states.items }
    ensures { IfOk result (ClosedState (length redirection.now.kept.items) least.now.letters) }
{
    let mut arcs = Vec::new(alloc);
    for letter in 0..least.letters {
        arcs.push(redirection.redirected(least.arc_of(state, letter)))?;
    }
    Ok(State {
        is_final: least.is_final(state),
        arcs,
    })
}
