ghost use Rattle.std.specs.Prelude.{◌≡◌, ℕ, ◌+◌, ◌*◌, ◌<◌, ◌≤◌, length, slice_index};
ghost use Rattle.tables.specs.Book.{laid, place};
ghost use Rattle.tables.specs.Sheet.{mean_at};
ghost use Rattle.theory.specs.Hyper.{count_below};
ghost use Rattle.minimize.specs.Rows.{Laid, rows_table};
ghost use Rattle.minimize.specs.Steps.{Gathered, leads, number};
ghost use Rattle.minimize.specs.Gathering.{FirstNumbers, Labelled, Moved, Numbers, RowMoved};

use crate::rows::place;
use weights::Weight;

// Numbers the classes in the order of the states that stand for them, gives each of these its number, and answers how many there are.
fn number_classes(labels: &[u16], count: u16, numbers: &mut [u16]) -> u16
    requires label_room { count ≤ length labels.now }
    requires room { count ≤ length numbers.old }
    ensures numbers { FirstNumbers count (slice_index labels.now) (slice_index numbers.new) }
    ensures classes { result ≡ count_below (leads (slice_index labels.now)) count }
{
    let mut classes = 0;
    for state in 0..count {
        let at = usize::from(state);
        if labels[at] == state {
            numbers[at] = classes;
            classes += 1;
        }
    }
    classes
}

// Gives every state the number of its class. Where a state stands for its class this writes what is there, so none is lost before it
// is read.
fn number_states(labels: &[u16], count: u16, numbers: &mut [u16])
    requires labelled { Labelled count (slice_index labels.now) }
    requires label_room { count ≤ length labels.now }
    requires room { count ≤ length numbers.old }
    requires numbers { FirstNumbers count (slice_index labels.now) (slice_index numbers.old) }
    ensures { Numbers count (slice_index labels.now) (slice_index numbers.new) }
{
    for state in 0..count {
        let at = usize::from(state);
        numbers[at] = numbers[usize::from(labels[at])];
    }
}

// Moves the row of a state up to another row, with its targets given by the numbers of their classes.
fn move_row<W: Weight>(
    targets: &mut [u16],
    weights: &mut [W],
    letters: u8,
    from: u16,
    to: u16,
    numbers: &[u16],
)
    requires up { to ≤ from }
    requires target_room { 1 + (from * letters + letters) ≤ length targets.old }
    requires weight_room { 1 + (from * letters + letters) ≤ length weights.old }
    requires targets { (a : ℕ) → a < letters → slice_index targets.old (place letters from a) < length numbers.now }
    ensures targets { RowMoved letters letters from to (slice_index numbers.now) (slice_index targets.old) (slice_index targets.new) }
    ensures weights { RowMoved letters letters from to (λ x. x) (mean_at W.kind weights.old) (mean_at W.kind weights.new) }
{
    for letter in 0..letters {
        let old = place(letters, from, letter);
        let new = place(letters, to, letter);
        targets[new] = numbers[usize::from(targets[old])];
        weights[new] = weights[old];
    }
}

// Moves up the rows and marks of the states that stand for a class. No row is overwritten before it is read, since no class has a
// number above the state that stands for it.
fn move_rows<W: Weight>(
    targets: &mut [u16],
    weights: &mut [W],
    marks: &mut [u8],
    letters: u8,
    count: u16,
    labels: &[u16],
    numbers: &[u16],
)
    requires laid { Laid W.kind (laid targets.old weights.old marks.old letters count) }
    requires label_room { count ≤ length labels.now }
    requires room { count ≤ length numbers.now }
    requires numbers { Numbers count (slice_index labels.now) (slice_index numbers.now) }
    ensures { Moved W.kind letters count (slice_index labels.now) (slice_index numbers.now) (laid targets.old weights.old marks.old letters count) (laid targets.new weights.new marks.new letters count) }
{
    for state in 0..count {
        let at = usize::from(state);
        if labels[at] == state {
            let number = numbers[at];
            move_row(targets, weights, letters, state, number, numbers);
            marks[usize::from(number)] = marks[at];
        }
    }
}

// Makes one state of each class, in place, and answers how many there are. A state's label is the state that stands for its class,
// and whose row and mark the class takes. Each state gets the number of its class.
pub(crate) fn gather<W: Weight>(
    targets: &mut [u16],
    weights: &mut [W],
    marks: &mut [u8],
    letters: u8,
    count: u16,
    labels: &[u16],
    numbers: &mut [u16],
) -> u16
    requires laid { Laid W.kind (laid targets.old weights.old marks.old letters count) }
    requires labelled { Labelled count (slice_index labels.now) }
    requires label_room { count ≤ length labels.now }
    requires room { count ≤ length numbers.old }
    ensures gathered { Gathered W.kind.group (rows_table W.kind (laid targets.old weights.old marks.old letters count)) (slice_index labels.now) (rows_table W.kind (laid targets.new weights.new marks.new letters result)) }
    ensures laid { Laid W.kind (laid targets.new weights.new marks.new letters result) }
    ensures few { result ≤ count }
    ensures numbers { Numbers count (slice_index labels.now) (slice_index numbers.new) }
{
    let classes = number_classes(labels, count, numbers);
    number_states(labels, count, numbers);
    move_rows(targets, weights, marks, letters, count, labels, numbers);
    targets[0] = numbers[usize::from(targets[0])];
    classes
}
