ghost use Rattle.std.specs.Prelude.{◌≡◌, ℕ, ◌+◌, ◌*◌, ◌%◌, ◌<◌, ◌≤◌, length, slice_index};
ghost use Rattle.tables.specs.Table.{Table};
ghost use Rattle.tables.specs.Book.{laid};
ghost use Rattle.theory.specs.Runs.{Reachable};
ghost use Rattle.theory.specs.Series.{Equivalent};
ghost use Rattle.theory.specs.Least.{Least};
ghost use Rattle.minimize.specs.Rows.{Laid, rows_table};
ghost use Rattle.minimize.specs.Watch.{Passed, hyper_steps};
ghost use Rattle.minimize.specs.Steps.{Marked, has_mark};
ghost use Rattle.minimize.specs.Marking.{Written};

use crate::almost::find_almost;
use crate::choose::choose;
use crate::kernel::{count_marked, find_co_kernel, find_kernel, write_marks};
use crate::push::find_pushes;
use crate::redirect::redirect;
use crate::rows::Rows;
use crate::watch::{Step, Watch};
use weights::Weight;

// How many states a hyper table has, and how many of the least table's states are kernel.
#[derive(Clone, Copy)]
pub(crate) struct HyperCounts {
    pub(crate) states: u16,
    pub(crate) kernel: u16,
}

// Finds the kernel and the co-kernel states of a table, and adds them to its marks.
#[tactic(auto, using(crate::proofs::Peeling::pushes_tell))]
fn mark_states<W: Weight>(
    letters: u8,
    count: u16,
    targets: &[u16],
    weights: &[W],
    marks: &mut [u8],
    distances: &mut [u16],
    pushes: &mut [W],
    held: &mut [u16],
    kernel: &mut [u16],
    co_kernel: &mut [u16],
)
    requires laid { Laid W.kind (laid targets.now weights.now marks.old letters count) }
    requires reached { (q : ℕ) → q < count → Reachable (rows_table W.kind (laid targets.now weights.now marks.old letters count)) q }
    requires distance_room { count ≤ length distances.old }
    requires push_room { count ≤ length pushes.old }
    requires held_room { count ≤ length held.old }
    requires kernel_room { count ≤ length kernel.old }
    requires co_kernel_room { count ≤ length co_kernel.old }
    ensures finality { (q : ℕ) → q < count →
        (rows_table W.kind (laid targets.now weights.now marks.new letters count)).final q ≡ (rows_table W.kind (laid targets.now weights.now marks.old letters count)).final q }
    ensures marked { Marked W.kind.group (rows_table W.kind (laid targets.now weights.now marks.new letters count)) (has_mark kernel.new) (has_mark co_kernel.new) }
    ensures marks { (q : ℕ) → q < count →
        slice_index marks.new q ≡ slice_index marks.old q % 2 + 2 * slice_index kernel.new q + 4 * slice_index co_kernel.new q }
    ensures kernel_small { (q : ℕ) → q < count → slice_index kernel.new q ≤ 1 }
    ensures co_kernel_small { (q : ℕ) → q < count → slice_index co_kernel.new q ≤ 1 }
{
    let rows = Rows {
        targets,
        weights,
        marks,
        letters,
        count,
    };
    find_kernel(rows, kernel, held);
    find_pushes(rows, distances, pushes);
    find_co_kernel(rows, distances, co_kernel, held);
    write_marks(marks, count, kernel, co_kernel);
}

// Writes the hyper table of a least table and adds kernel and co-kernel states to the least table's marks. The slices of numbers and
// of elements are for work.
pub(crate) fn make_hyper<W: Weight, T: Watch>(
    letters: u8,
    count: u16,
    targets: &[u16],
    weights: &[W],
    marks: &mut [u8],
    hyper_targets: &mut [u16],
    hyper_weights: &mut [W],
    hyper_marks: &mut [u8],
    representatives: &mut [u16],
    factors: &mut [W],
    numbers: &mut [u16],
    elements: &mut [W],
    watch: &mut T,
) -> HyperCounts
    requires laid { Laid W.kind (laid targets.now weights.now marks.old letters count) }
    requires reached { (q : ℕ) → q < count → Reachable (rows_table W.kind (laid targets.now weights.now marks.old letters count)) q }
    requires apart { (q p : ℕ) → q < count → p < count → Equivalent W.kind.group (rows_table W.kind (laid targets.now weights.now marks.old letters count)) q p → q ≡ p }
    requires target_room { 1 + count * letters ≤ length hyper_targets.old }
    requires weight_room { 1 + count * letters ≤ length hyper_weights.old }
    requires mark_room { count ≤ length hyper_marks.old }
    requires representative_room { count ≤ length representatives.old }
    requires factor_room { count ≤ length factors.old }
    requires number_room { 24 * count ≤ length numbers.old }
    requires element_room { 6 * count ≤ length elements.old }
    ensures laid { Laid W.kind (laid targets.now weights.now marks.new letters count) }
    ensures hyper_laid { Laid W.kind (laid hyper_targets.new hyper_weights.new hyper_marks.new letters result.states) }
    ensures written { (t : Table W.kind.group.Mean) → Least W.kind.group t (rows_table W.kind (laid targets.now weights.now marks.old letters count)) →
        Written W.kind t (laid targets.now weights.now marks.new letters count) (laid hyper_targets.new hyper_weights.new hyper_marks.new letters result.states) representatives.new factors.new result.kernel }
    ensures watched { Passed T.told hyper_steps watch.old watch.new }
{
    let states = usize::from(count);
    let (kernel, rest) = numbers.split_at_mut(states);
    let (co_kernel, rest) = rest.split_at_mut(states);
    let (distances, rest) = rest.split_at_mut(states);
    let (labels, rest) = rest.split_at_mut(states);
    let (heads, rest) = rest.split_at_mut(states);
    let (links, keys) = rest.split_at_mut(states);
    let (bases, label_factors) = elements.split_at_mut(states);
    mark_states(
        letters, count, targets, weights, marks, distances, bases, links, kernel, co_kernel,
    );
    watch.done(Step::Kernel);
    let rows = Rows {
        targets,
        weights,
        marks,
        letters,
        count,
    };
    find_almost(
        rows,
        co_kernel,
        hyper_targets,
        hyper_weights,
        bases,
        heads,
        links,
        keys,
        labels,
        label_factors,
    );
    watch.done(Step::Almost);
    choose(
        count,
        labels,
        label_factors,
        kernel,
        co_kernel,
        heads,
        representatives,
        factors,
    );
    let states = redirect(
        rows,
        kernel,
        representatives,
        factors,
        links,
        hyper_targets,
        hyper_weights,
        hyper_marks,
    );
    watch.done(Step::Redirect);
    HyperCounts {
        states,
        kernel: count_marked(kernel, count),
    }
}
