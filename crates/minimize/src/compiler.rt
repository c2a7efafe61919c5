ghost use Rattle.std.specs.Prelude.{◌≡◌, ◌+◌, ◌-◌, ◌*◌, ◌≤◌, length, Decides};
ghost use Rattle.minimize.specs.Memories.{TableRoom, StateRoom, Room, SameLengths, memories};
ghost use Rattle.std.specs.Prelude.{◌++◌};
ghost use Rattle.theory.specs.Theorems.{agreement_length};
ghost use Rattle.minimize.specs.Compile.{Compiled, Outcome};
ghost use Rattle.minimize.specs.Watch.{Passed, Watched, least_steps, hyper_steps};

use crate::hyper::make_hyper;
use crate::least::make_least;
use crate::memories::{StateMemory, TableMemory, WorkMemory};
use crate::watch::{Unwatched, Watch};
use tables::Source;
use weights::{Refusal, Weight};

// What compiling tells: how many states the least table and the hyper table have, how many of the least table's states are kernel, and
// from how many letters on the hyper table weighs words as the source does.
#[derive(Clone, Copy, PartialEq, Eq, Debug)]
pub struct Report {
    pub least: u16,
    pub hyper: u16,
    pub kernel: u16,
    pub agreement: u16,
}

// Whether memories of those lengths have room for any table of so many states and letters.
fn has_table_room(states: u16, letters: u8, targets: usize, weights: usize, marks: usize) -> bool
    ensures { Decides result (TableRoom states letters targets weights marks) }
{
    let places = 1 + usize::from(states) * usize::from(letters);
    places <= targets && places <= weights && usize::from(states) <= marks
}

// Whether memories of those lengths have room for a representative and a factor for each state, and for work.
fn has_state_room(
    states: u16,
    representatives: usize,
    factors: usize,
    numbers: usize,
    elements: usize,
) -> bool
    ensures { Decides result (StateRoom states representatives factors numbers elements) }
{
    let states = usize::from(states);
    states <= representatives
        && states <= factors
        && 24 * states <= numbers
        && 6 * states <= elements
}

// Whether memories have room for a source of so many states and letters.
pub(crate) fn has_room<W: Weight>(
    states: u16,
    letters: u8,
    targets: &[u16],
    weights: &[W],
    marks: &[u8],
    hyper_targets: &[u16],
    hyper_weights: &[W],
    hyper_marks: &[u8],
    representatives: &[u16],
    factors: &[W],
    numbers: &[u16],
    elements: &[W],
) -> bool
    ensures { Decides result (Room states letters
        (memories targets.now weights.now marks.now hyper_targets.now hyper_weights.now hyper_marks.now representatives.now factors.now numbers.now elements.now)) }
{
    has_table_room(states, letters, targets.len(), weights.len(), marks.len())
        && has_table_room(
            states,
            letters,
            hyper_targets.len(),
            hyper_weights.len(),
            hyper_marks.len(),
        )
        && has_state_room(
            states,
            representatives.len(),
            factors.len(),
            numbers.len(),
            elements.len(),
        )
}

// The agreement length, where the least table has so many states.
fn agreement_length(least: u16) -> u16
    requires some { 1 ≤ least }
    requires few { least ≤ 4096 }
    ensures { result ≡ agreement_length least }
{
    2 * least - 2
}

// Compiles a source, in memories that have room.
fn compile_in_room<W: Weight, S: Source<W>, T: Watch>(
    source: &S,
    targets: &mut [u16],
    weights: &mut [W],
    marks: &mut [u8],
    hyper_targets: &mut [u16],
    hyper_weights: &mut [W],
    hyper_marks: &mut [u8],
    representatives: &mut [u16],
    factors: &mut [W],
    numbers: &mut [u16],
    elements: &mut [W],
    watch: &mut T,
) -> Report
    requires { Room (S.table source.now W.kind).states (S.table source.now W.kind).letters
        (memories targets.old weights.old marks.old hyper_targets.old hyper_weights.old hyper_marks.old representatives.old factors.old numbers.old elements.old) }
    ensures compiled { Compiled W.kind (S.table source.now W.kind)
        (memories targets.new weights.new marks.new hyper_targets.new hyper_weights.new hyper_marks.new representatives.new factors.new numbers.new elements.new) result }
    ensures lengths { SameLengths
        (memories targets.old weights.old marks.old hyper_targets.old hyper_weights.old hyper_marks.old representatives.old factors.old numbers.old elements.old)
        (memories targets.new weights.new marks.new hyper_targets.new hyper_weights.new hyper_marks.new representatives.new factors.new numbers.new elements.new) }
    ensures watched { Passed T.told (least_steps ++ hyper_steps) watch.old watch.new }
{
    // The memory of the hyper table serves for work until it is written.
    let least = make_least(
        source,
        targets,
        weights,
        marks,
        hyper_targets,
        hyper_weights,
        numbers,
        elements,
        watch,
    );
    let counts = make_hyper(
        source.letters(),
        least,
        targets,
        weights,
        marks,
        hyper_targets,
        hyper_weights,
        hyper_marks,
        representatives,
        factors,
        numbers,
        elements,
        watch,
    );
    Report {
        least,
        hyper: counts.states,
        kernel: counts.kernel,
        agreement: agreement_length(least),
    }
}

// The same in memories that may lack room.
pub(crate) fn compile_slices<W: Weight, S: Source<W>, T: Watch>(
    source: &S,
    targets: &mut [u16],
    weights: &mut [W],
    marks: &mut [u8],
    hyper_targets: &mut [u16],
    hyper_weights: &mut [W],
    hyper_marks: &mut [u8],
    representatives: &mut [u16],
    factors: &mut [W],
    numbers: &mut [u16],
    elements: &mut [W],
    watch: &mut T,
) -> Result<Report, Refusal>
    ensures outcome { Outcome W.kind (S.table source.now W.kind)
        (memories targets.old weights.old marks.old hyper_targets.old hyper_weights.old hyper_marks.old representatives.old factors.old numbers.old elements.old)
        (memories targets.new weights.new marks.new hyper_targets.new hyper_weights.new hyper_marks.new representatives.new factors.new numbers.new elements.new) result }
    ensures watched { Watched T.told watch.old watch.new result }
{
    if !has_room(
        source.states(),
        source.letters(),
        targets,
        weights,
        marks,
        hyper_targets,
        hyper_weights,
        hyper_marks,
        representatives,
        factors,
        numbers,
        elements,
    ) {
        return Err(Refusal::ShortMemory);
    }
    Ok(compile_in_room(
        source,
        targets,
        weights,
        marks,
        hyper_targets,
        hyper_weights,
        hyper_marks,
        representatives,
        factors,
        numbers,
        elements,
        watch,
    ))
}

// Compiles a source of n states and s letters: writes its least table and the hyper table of that, in the layout of a book, and a
// representative and a factor for each state of the least table.
//
// Each table takes 1 + n * s targets, as many weights and n marks, even if it turns out smaller. Besides that it takes n representatives,
// n factors, and 24 * n numbers and 6 * n elements for work. Where a memory is shorter, it refuses with 6, and nothing is written.
//
// Afterwards the places that the tables and the lists do not take may hold anything, and so may the memory for work.
pub fn compile<W: Weight, S: Source<W>>(
    source: &S,
    least: TableMemory<'_, W>,
    hyper: TableMemory<'_, W>,
    states: StateMemory<'_, W>,
    work: WorkMemory<'_, W>,
) -> Result<Report, Refusal>
    ensures { Outcome W.kind (S.table source.now W.kind)
        (memories least.entry.targets.now least.entry.weights.now least.entry.marks.now hyper.entry.targets.now hyper.entry.weights.now hyper.entry.marks.now states.entry.representatives.now states.entry.factors.now work.entry.numbers.now work.entry.elements.now)
        (memories least.exit.0.now least.exit.1.0.now least.exit.1.1.0.now hyper.exit.0.now hyper.exit.1.0.now hyper.exit.1.1.0.now states.exit.0.now states.exit.1.0.now work.exit.0.now work.exit.1.0.now) result }
{
    let TableMemory {
        targets,
        weights,
        marks,
    } = least;
    let TableMemory {
        targets: hyper_targets,
        weights: hyper_weights,
        marks: hyper_marks,
    } = hyper;
    let StateMemory {
        representatives,
        factors,
    } = states;
    let WorkMemory { numbers, elements } = work;
    compile_slices(
        source,
        targets,
        weights,
        marks,
        hyper_targets,
        hyper_weights,
        hyper_marks,
        representatives,
        factors,
        numbers,
        elements,
        &mut Unwatched,
    )
}
