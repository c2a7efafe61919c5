ghost use Rattle.std.specs.Prelude.{◌≡◌, ◌<◌, ◌≤◌, length, IfOk};
ghost use Rattle.reference.specs.Closed.{ClosedState, Closed};
ghost use Rattle.reference.specs.Members.{Members};

use crate::equivalent::are_equivalent;
use crate::push::Pushes;
use crate::table::{Arc, State, Table};
use std::alloc::{AllocError, Global};
use weights::Weight;

// The least table. Its states are classes, each known by the state of the table that was met first.
pub(crate) fn least_table<W: Weight>(
    table: &Table<W>,
    alloc: Global,
) -> Result<Table<W>, AllocError>
    requires { Closed table.now }
    ensures closed { IfOk result Closed }
    ensures states { IfOk result (λ t. length t.states.items ≤ length table.now.states.items) }
    ensures letters { IfOk result (λ t. t.letters ≡ table.now.letters) }
{
    let pushes = Pushes::of(table, alloc)?;
    let mut members = Vec::new(alloc);
    members.push(table.start)?;
    let mut states = Vec::new(alloc);
    while let Some(member) = members.get(states.len()).copied() {
        states.push(class_state(table, &pushes, member, &mut members, alloc)?)?;
    }
    let start_weight = match pushes.get(table.start) {
        Some(push) => table.start_weight.times(push),
        None => W::one(),
    };
    Ok(Table {
        letters: table.letters,
        start: 0,
        start_weight,
        states,
    })
}

// The state of the least table for the class of a state.
fn class_state<W: Weight>(
    table: &Table<W>,
    pushes: &Pushes<W>,
    member: usize,
    members: &mut Vec<usize>,
    alloc: Global,
) -> Result<State<W>, AllocError>
    requires closed { Closed table.now }
    requires member { member < length table.now.states.items }
    requires members { Members (length table.now.states.items) members.old.items }
    ensures more { length members.old.items ≤ length members.new.items }
    ensures members { Members (length table.now.states.items) members.new.items }
    ensures state { IfOk result (ClosedState (length members.new.items) table.now.letters) }
{
    let mut arcs = Vec::new(alloc);
    for letter in 0..table.letters {
        let arc = table.arc_of(member, letter);
        let target = class_of(table, pushes, arc.target, members, alloc)?;
        arcs.push(Arc {
            target,
            weight: pushed(pushes, member, arc),
        })?;
    }
    Ok(State {
        is_final: table.is_final(member),
        arcs,
    })
}

// The number of the class of a state, the next one if the class is new.
fn class_of<W: Weight>(
    table: &Table<W>,
    pushes: &Pushes<W>,
    state: usize,
    members: &mut Vec<usize>,
    alloc: Global,
) -> Result<usize, AllocError>
    requires state { state < length table.now.states.items }
    requires members { Members (length table.now.states.items) members.old.items }
    ensures more { length members.old.items ≤ length members.new.items }
    ensures members { Members (length table.now.states.items) members.new.items }
    ensures number { IfOk result (λ number. number < length members.new.items) }
{
    for (number, member) in members.iter().enumerate() {
        if *member == state {
            return Ok(number);
        }
        if are_equivalent(table, pushes, *member, state, alloc)? {
            return Ok(number);
        }
    }
    let number = members.len();
    members.push(state)?;
    Ok(number)
}

// The inverse of the state's push, times the weight of the arc, times the push of its target; one where the target is dead.
fn pushed<W: Weight>(pushes: &Pushes<W>, state: usize, arc: Arc<W>) -> W {
    match (pushes.get(state), pushes.get(arc.target)) {
        (Some(push), Some(target)) => push.inverse().times(arc.weight).times(target),
        _ => W::one(),
    }
}
