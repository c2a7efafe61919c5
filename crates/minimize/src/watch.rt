ghost use Rattle.minimize.specs.Memories.{memories};
ghost use Rattle.minimize.specs.Compile.{Outcome};
ghost use Rattle.minimize.specs.Watch.{Watched};

use crate::compiler::{Report, compile_slices};
use crate::memories::{StateMemory, TableMemory, WorkMemory};
use tables::Source;
use weights::{Refusal, Weight};

// A step of compiling.
#[derive(Clone, Copy, PartialEq, Eq, Debug)]
pub enum Step {
    // the reachable states are copied
    Copy,
    // the pushes are found, and the weights pushed
    Push,
    // the classes of equivalent states are found, and gathered: this is the least table
    Classes,
    // the kernel and the co-kernel states are marked
    Kernel,
    // the almost-equivalent states are found, with their factors
    Almost,
    // the representatives are chosen, and the hyper table is written
    Redirect,
}

// Whoever is told when a step of compiling is done, as to take its time.
pub trait Watch {
    ghost use Rattle.minimize.specs.declared.watch.Step.{Step};

    // how a watch that is told of a step may change
    ghost told: { Self → Step → Self → Type 0 };

    fn done(&mut self, step: Step)
        ensures { told self.old step self.new };
}

// Watches nothing.
#[derive(Clone, Copy)]
pub struct Unwatched;

impl Watch for Unwatched {
    ghost told = { λ before step after. Unit {0} };

    fn done(&mut self, _step: Step) {}
}

// The same as `compile`; `watch` is told of each step when it is done, in their order, and of nothing where compiling is refused.
pub fn compile_watched<W: Weight, S: Source<W>, T: Watch>(
    source: &S,
    least: TableMemory<'_, W>,
    hyper: TableMemory<'_, W>,
    states: StateMemory<'_, W>,
    work: WorkMemory<'_, W>,
    watch: &mut T,
) -> Result<Report, Refusal>
    ensures outcome { Outcome W.kind (S.table source.now W.kind)
        (memories least.entry.targets.now least.entry.weights.now least.entry.marks.now hyper.entry.targets.now hyper.entry.weights.now hyper.entry.marks.now states.entry.representatives.now states.entry.factors.now work.entry.numbers.now work.entry.elements.now)
        (memories least.exit.0.now least.exit.1.0.now least.exit.1.1.0.now hyper.exit.0.now hyper.exit.1.0.now hyper.exit.1.1.0.now states.exit.0.now states.exit.1.0.now work.exit.0.now work.exit.1.0.now) result }
    ensures watched { Watched T.told watch.old watch.new result }
{
    let TableMemory {
        targets,
        weights,
        marks,
    } = least;
    let TableMemory {
        targets: hyper_targets,
        weights: hyper_weights,
        marks: hyper_marks,
    } = hyper;
    let StateMemory {
        representatives,
        factors,
    } = states;
    let WorkMemory { numbers, elements } = work;
    compile_slices(
        source,
        targets,
        weights,
        marks,
        hyper_targets,
        hyper_weights,
        hyper_marks,
        representatives,
        factors,
        numbers,
        elements,
        watch,
    )
}
