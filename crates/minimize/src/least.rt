ghost use Rattle.std.specs.Prelude.{◌≡◌, ◌+◌, ◌*◌, ◌≤◌, length, slice_index};
ghost use Rattle.tables.specs.Book.{laid};
ghost use Rattle.tables.specs.Sheet.{mean_at};
ghost use Rattle.theory.specs.Least.{Least};
ghost use Rattle.minimize.specs.Rows.{Laid, rows_table};
ghost use Rattle.minimize.specs.Watch.{Passed, least_steps};
ghost use Rattle.minimize.specs.Steps.{Pushes, PushedWeights, Normal, Classes, Gathered};

use crate::classes::find_classes;
use crate::copy::copy_reachable;
use crate::gather::gather;
use crate::push::{find_pushes, push_weights};
use crate::rows::Rows;
use crate::watch::{Step, Watch};
use tables::Source;
use weights::Weight;

// Finds the pushes of a table, and pushes its weights.
fn push_table<W: Weight>(
    letters: u8,
    count: u16,
    targets: &[u16],
    weights: &mut [W],
    marks: &[u8],
    distances: &mut [u16],
    pushes: &mut [W],
)
    requires laid { Laid W.kind (laid targets.now weights.old marks.now letters count) }
    requires distance_room { count ≤ length distances.old }
    requires push_room { count ≤ length pushes.old }
    ensures pushes { Pushes W.kind.group (rows_table W.kind (laid targets.now weights.old marks.now letters count)) (slice_index distances.new) (mean_at W.kind pushes.new) }
    ensures pushed { PushedWeights W.kind.group (rows_table W.kind (laid targets.now weights.old marks.now letters count)) (slice_index distances.new) (mean_at W.kind pushes.new)
        (rows_table W.kind (laid targets.now weights.new marks.now letters count)) }
    ensures laid { Laid W.kind (laid targets.now weights.new marks.now letters count) }
    ensures normal { Normal W.kind.group (rows_table W.kind (laid targets.now weights.new marks.now letters count)) (slice_index distances.new) }
{
    let rows = Rows {
        targets,
        weights,
        marks,
        letters,
        count,
    };
    find_pushes(rows, distances, pushes);
    push_weights(targets, weights, letters, count, distances, pushes);
}

// Finds the classes of a table whose weights are pushed, and gathers them. The answer is how many they are.
fn gather_classes<W: Weight>(
    letters: u8,
    count: u16,
    targets: &mut [u16],
    weights: &mut [W],
    marks: &mut [u8],
    distances: &[u16],
    row_labels: &mut [u16],
    row_elements: &mut [W],
    heads: &mut [u16],
    links: &mut [u16],
    keys: &mut [u16],
    labels: &mut [u16],
) -> u16
    requires laid { Laid W.kind (laid targets.old weights.old marks.old letters count) }
    requires normal { Normal W.kind.group (rows_table W.kind (laid targets.old weights.old marks.old letters count)) (slice_index distances.now) }
    requires distance_room { count ≤ length distances.now }
    requires row_label_room { count * letters ≤ length row_labels.old }
    requires row_element_room { count * letters ≤ length row_elements.old }
    requires some_bucket { 1 ≤ length heads.old }
    requires link_room { count ≤ length links.old }
    requires key_room { count ≤ length keys.old }
    requires label_room { count ≤ length labels.old }
    ensures classes { Classes W.kind.group (rows_table W.kind (laid targets.old weights.old marks.old letters count)) (slice_index labels.new) }
    ensures gathered { Gathered W.kind.group (rows_table W.kind (laid targets.old weights.old marks.old letters count)) (slice_index labels.new) (rows_table W.kind (laid targets.new weights.new marks.new letters result)) }
    ensures laid { Laid W.kind (laid targets.new weights.new marks.new letters result) }
    ensures few { result ≤ count }
{
    let rows = Rows {
        targets,
        weights,
        marks,
        letters,
        count,
    };
    find_classes(
        rows,
        distances,
        row_labels,
        row_elements,
        heads,
        links,
        keys,
        labels,
    );
    gather(targets, weights, marks, letters, count, labels, keys)
}

// Writes the least table of a source. The answer is how many states it has. The other slices are for work.
pub(crate) fn make_least<W: Weight, S: Source<W>, T: Watch>(
    source: &S,
    targets: &mut [u16],
    weights: &mut [W],
    marks: &mut [u8],
    row_labels: &mut [u16],
    row_elements: &mut [W],
    numbers: &mut [u16],
    elements: &mut [W],
    watch: &mut T,
) -> u16
    requires target_room { 1 + (S.table source.now W.kind).states * (S.table source.now W.kind).letters ≤ length targets.old }
    requires weight_room { 1 + (S.table source.now W.kind).states * (S.table source.now W.kind).letters ≤ length weights.old }
    requires mark_room { (S.table source.now W.kind).states ≤ length marks.old }
    requires row_label_room { (S.table source.now W.kind).states * (S.table source.now W.kind).letters ≤ length row_labels.old }
    requires row_element_room { (S.table source.now W.kind).states * (S.table source.now W.kind).letters ≤ length row_elements.old }
    requires number_room { 24 * (S.table source.now W.kind).states ≤ length numbers.old }
    requires element_room { 6 * (S.table source.now W.kind).states ≤ length elements.old }
    ensures few { result ≤ (S.table source.now W.kind).states }
    ensures laid { Laid W.kind (laid targets.new weights.new marks.new (S.table source.now W.kind).letters result) }
    ensures least { Least W.kind.group (S.table source.now W.kind) (rows_table W.kind (laid targets.new weights.new marks.new (S.table source.now W.kind).letters result)) }
    ensures watched { Passed T.told least_steps watch.old watch.new }
{
    let states = usize::from(source.states());
    let letters = source.letters();
    let (copies, rest) = numbers.split_at_mut(states);
    let (order, rest) = rest.split_at_mut(states);
    let (distances, rest) = rest.split_at_mut(states);
    let (heads, rest) = rest.split_at_mut(states);
    let (links, rest) = rest.split_at_mut(states);
    let (keys, labels) = rest.split_at_mut(states);
    let count = copy_reachable(source, targets, weights, marks, copies, order);
    watch.done(Step::Copy);
    push_table(letters, count, targets, weights, marks, distances, elements);
    watch.done(Step::Push);
    let least = gather_classes(
        letters,
        count,
        targets,
        weights,
        marks,
        distances,
        row_labels,
        row_elements,
        heads,
        links,
        keys,
        labels,
    );
    watch.done(Step::Classes);
    least
}
