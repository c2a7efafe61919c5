ghost use Rattle.std.specs.Prelude.{◌≡◌, ◌+◌, ◌*◌, ◌<◌, ◌≤◌, length, slice_index};
ghost use Rattle.minimize.specs.Rows.{Laid, rows_table};
ghost use Rattle.minimize.specs.Slices.{laid_rows};
ghost use Rattle.minimize.specs.Steps.{Normal, Classes};
ghost use Rattle.minimize.specs.Classing.{Refined, target_label};
ghost use Rattle.minimize.specs.Filling.{Filled, FilledRow};

use crate::group::group;
use crate::rows::Rows;
use weights::Weight;

// Fills the row of a state: with the labels of its targets, and with the weights of its arcs.
fn fill_row<W: Weight>(
    rows: &Rows<'_, W>,
    state: u16,
    labels: &[u16],
    row_labels: &mut [u16],
    row_elements: &mut [W],
)
    requires laid { Laid W.kind (laid_rows rows.now) }
    requires inside { state < rows.now.count }
    requires labelled { rows.now.count ≤ length labels.now }
    requires label_room { rows.now.count * rows.now.letters ≤ length row_labels.old }
    requires element_room { rows.now.count * rows.now.letters ≤ length row_elements.old }
    ensures { FilledRow W.kind rows.now.letters (target_label (rows_table W.kind (laid_rows rows.now)) labels.now) (rows_table W.kind (laid_rows rows.now)).weight state rows.now.letters row_labels.old row_elements.old row_labels.new row_elements.new }
{
    let from = usize::from(state) * usize::from(rows.letters);
    for letter in 0..rows.letters {
        let at = from + usize::from(letter);
        row_labels[at] = labels[usize::from(rows.target(state, letter))];
        row_elements[at] = rows.weight(state, letter);
    }
}

// Fills the rows of all states.
fn fill_rows<W: Weight>(
    rows: &Rows<'_, W>,
    labels: &[u16],
    row_labels: &mut [u16],
    row_elements: &mut [W],
)
    requires laid { Laid W.kind (laid_rows rows.now) }
    requires labelled { rows.now.count ≤ length labels.now }
    requires label_room { rows.now.count * rows.now.letters ≤ length row_labels.old }
    requires element_room { rows.now.count * rows.now.letters ≤ length row_elements.old }
    ensures { Filled W.kind rows.now.letters (target_label (rows_table W.kind (laid_rows rows.now)) labels.now) (rows_table W.kind (laid_rows rows.now)).weight rows.now.count row_labels.new row_elements.new }
{
    for state in 0..rows.count {
        fill_row(rows, state, labels, row_labels, row_elements);
    }
}

// One round: states that had one label keep one if their arcs weigh alike and lead to states that had one label. The new label of a
// state is the first state that has it; told is how many labels there are.
fn refine<W: Weight>(
    rows: &Rows<'_, W>,
    row_labels: &mut [u16],
    row_elements: &mut [W],
    heads: &mut [u16],
    links: &mut [u16],
    keys: &mut [u16],
    labels: &mut [u16],
) -> u16
    requires laid { Laid W.kind (laid_rows rows.now) }
    requires row_label_room { rows.now.count * rows.now.letters ≤ length row_labels.old }
    requires row_element_room { rows.now.count * rows.now.letters ≤ length row_elements.old }
    requires some_bucket { 1 ≤ length heads.old }
    requires link_room { rows.now.count ≤ length links.old }
    requires key_room { rows.now.count ≤ length keys.old }
    requires label_room { rows.now.count ≤ length labels.old }
    ensures { Refined W.kind.group (rows_table W.kind (laid_rows rows.now)) (slice_index labels.old) (slice_index labels.new) result }
{
    let count = usize::from(rows.count);
    keys[..count].copy_from_slice(&labels[..count]);
    fill_rows(rows, keys, row_labels, row_elements);
    group(
        rows.letters,
        rows.count,
        keys,
        row_labels,
        row_elements,
        heads,
        links,
        labels,
    )
}

// Gives each state the first state that is equivalent to it, in a table whose pushes are one.
pub(crate) fn find_classes<W: Weight>(
    rows: Rows<'_, W>,
    distances: &[u16],
    row_labels: &mut [u16],
    row_elements: &mut [W],
    heads: &mut [u16],
    links: &mut [u16],
    keys: &mut [u16],
    labels: &mut [u16],
)
    requires laid { Laid W.kind (laid_rows rows) }
    requires normal { Normal W.kind.group (rows_table W.kind (laid_rows rows)) (slice_index distances.now) }
    requires distance_room { rows.count ≤ length distances.now }
    requires row_label_room { rows.count * rows.letters ≤ length row_labels.old }
    requires row_element_room { rows.count * rows.letters ≤ length row_elements.old }
    requires some_bucket { 1 ≤ length heads.old }
    requires link_room { rows.count ≤ length links.old }
    requires key_room { rows.count ≤ length keys.old }
    requires label_room { rows.count ≤ length labels.old }
    ensures classes { Classes W.kind.group (rows_table W.kind (laid_rows rows.entry)) (slice_index labels.new) }
    ensures row_labels { length row_labels.new ≡ length row_labels.old }
    ensures row_elements { length row_elements.new ≡ length row_elements.old }
    ensures heads { length heads.new ≡ length heads.old }
    ensures links { length links.new ≡ length links.old }
    ensures keys { length keys.new ≡ length keys.old }
    ensures labels { length labels.new ≡ length labels.old }
{
    // Equivalent states have smallest accepted words of one length, and a state is final exactly if that is 0.
    let count = usize::from(rows.count);
    labels[..count].copy_from_slice(&distances[..count]);
    let mut known = 0;
    loop {
        let found = refine(&rows, row_labels, row_elements, heads, links, keys, labels);
        if found == known {
            break;
        }
        known = found;
    }
}
