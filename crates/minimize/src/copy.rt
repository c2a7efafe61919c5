ghost use Rattle.std.specs.Prelude.{◌≡◌, ℕ, ◌+◌, ◌*◌, ◌/◌, ◌%◌, ◌<◌, ◌≤◌, length, slice_index};
ghost use Rattle.tables.specs.Book.{laid};
ghost use Rattle.minimize.specs.Rows.{Laid, rows_table};
ghost use Rattle.minimize.specs.Steps.{none, Copied};
ghost use Rattle.minimize.specs.Copy.{CopyRoom, Meets, Numbered, ArcsCopied, MarksCopied};

use crate::rows::NONE;
use tables::Source;
use weights::Weight;

// Copies the states of a source that can be reached, with their arcs, numbered breadth-first. The answer is how many they are.
pub(crate) fn copy_reachable<W: Weight, S: Source<W>>(
    source: &S,
    targets: &mut [u16],
    weights: &mut [W],
    marks: &mut [u8],
    numbers: &mut [u16],
    order: &mut [u16],
) -> u16
    requires room { CopyRoom (S.table source.now W.kind) (length targets.old) (length weights.old) (length numbers.old) (length order.old) }
    requires marks { (S.table source.now W.kind).states ≤ length marks.old }
    ensures few { result ≤ (S.table source.now W.kind).states }
    ensures laid { Laid W.kind (laid targets.new weights.new marks.new (S.table source.now W.kind).letters result) }
    ensures copied { Copied W.kind.group (S.table source.now W.kind) (rows_table W.kind (laid targets.new weights.new marks.new (S.table source.now W.kind).letters result)) }
    ensures marks { (q : ℕ) → q < result → slice_index marks.new q ≤ 1 }
    ensures lengths { (length targets.new ≡ length targets.old) × (length weights.new ≡ length weights.old) × (length marks.new ≡ length marks.old) × (length numbers.new ≡ length numbers.old) × (length order.new ≡ length order.old) }
{
    copy_start(source, targets, weights, numbers, order);
    let count = copy_arcs(source, targets, weights, numbers, order);
    copy_marks(source, &order[..usize::from(count)], marks);
    count
}

// Copies the start, which gets number 0.
fn copy_start<W: Weight, S: Source<W>>(
    source: &S,
    targets: &mut [u16],
    weights: &mut [W],
    numbers: &mut [u16],
    order: &mut [u16],
)
    requires room { CopyRoom (S.table source.now W.kind) (length targets.old) (length weights.old) (length numbers.old) (length order.old) }
    ensures numbered { Numbered (S.table source.now W.kind) numbers.new order.new 1 }
    ensures copied { ArcsCopied W.kind (S.table source.now W.kind) targets.new weights.new order.new 1 0 }
{
    let start = source.start();
    numbers.fill(NONE);
    numbers[usize::from(start)] = 0;
    order[0] = start;
    targets[0] = 0;
    weights[0] = source.start_weight();
}

// Copies the arcs of all states that are met, in reading order. The answer is how many states they are.
fn copy_arcs<W: Weight, S: Source<W>>(
    source: &S,
    targets: &mut [u16],
    weights: &mut [W],
    numbers: &mut [u16],
    order: &mut [u16],
) -> u16
    requires room { CopyRoom (S.table source.now W.kind) (length targets.old) (length weights.old) (length numbers.old) (length order.old) }
    requires numbered { Numbered (S.table source.now W.kind) numbers.old order.old 1 }
    requires copied { ArcsCopied W.kind (S.table source.now W.kind) targets.old weights.old order.old 1 0 }
    ensures numbered { Numbered (S.table source.now W.kind) numbers.new order.new result }
    ensures copied { ArcsCopied W.kind (S.table source.now W.kind) targets.new weights.new order.new result (result * (S.table source.now W.kind).letters) }
{
    let letters = usize::from(source.letters());
    let mut count = 1;
    let mut arc = 0;
    while arc < usize::from(count) * letters {
        count = copy_arc(source, arc, count, targets, weights, numbers, order);
        arc += 1;
    }
    count
}

// Copies one arc, and meets the state that it leads to. The answer is how many states are met.
fn copy_arc<W: Weight, S: Source<W>>(
    source: &S,
    arc: usize,
    count: u16,
    targets: &mut [u16],
    weights: &mut [W],
    numbers: &mut [u16],
    order: &mut [u16],
) -> u16
    requires room { CopyRoom (S.table source.now W.kind) (length targets.old) (length weights.old) (length numbers.old) (length order.old) }
    requires numbered { Numbered (S.table source.now W.kind) numbers.old order.old count }
    requires copied { ArcsCopied W.kind (S.table source.now W.kind) targets.old weights.old order.old count arc }
    requires more { arc < count * (S.table source.now W.kind).letters }
    ensures numbered { Numbered (S.table source.now W.kind) numbers.new order.new result }
    ensures copied { ArcsCopied W.kind (S.table source.now W.kind) targets.new weights.new order.new result (arc + 1) }
{
    let (to, weight) = read_arc(source, order, arc);
    let met = meet(to, count, numbers, order);
    targets[1 + arc] = numbers[usize::from(to)];
    weights[1 + arc] = weight;
    met
}

// Where an arc leads, and what it weighs.
fn read_arc<W: Weight, S: Source<W>>(source: &S, order: &[u16], arc: usize) -> (u16, W)
    requires met { arc / (S.table source.now W.kind).letters < length order.now }
    requires inside { slice_index order.now (arc / (S.table source.now W.kind).letters) < (S.table source.now W.kind).states }
    ensures inside { result.0 < (S.table source.now W.kind).states }
    ensures target { result.0 ≡ (S.table source.now W.kind).target (slice_index order.now (arc / (S.table source.now W.kind).letters)) (arc % (S.table source.now W.kind).letters) }
    ensures weight { W.kind.mean result.1 ≡ (S.table source.now W.kind).weight (slice_index order.now (arc / (S.table source.now W.kind).letters)) (arc % (S.table source.now W.kind).letters) }
{
    let letters = usize::from(source.letters());
    let from = order[arc / letters];
    let letter = (arc % letters) as u8;
    let to = source.target(from, letter).unwrap();
    let weight = source.weight(from, letter).unwrap();
    (to, weight)
}

// Gives a state the next number, unless it has one. The answer is how many states have one.
fn meet(state: u16, count: u16, numbers: &mut [u16], order: &mut [u16]) -> u16
    requires inside { state < length numbers.old }
    requires room { slice_index numbers.old state ≡ none → count < length order.old }
    requires few { count < none }
    ensures { Meets state count numbers.old order.old numbers.new order.new result }
{
    if numbers[usize::from(state)] != NONE {
        return count;
    }
    numbers[usize::from(state)] = count;
    order[usize::from(count)] = state;
    count + 1
}

// Marks which of the states in the order are final.
fn copy_marks<W: Weight, S: Source<W>>(source: &S, order: &[u16], marks: &mut [u8])
    requires room { length order.now ≤ length marks.old }
    requires inside { (i : ℕ) → i < length order.now → slice_index order.now i < (S.table source.now W.kind).states }
    ensures { MarksCopied (S.table source.now W.kind) marks.new order.now (length order.now) }
{
    for (number, state) in order.iter().enumerate() {
        marks[number] = u8::from(source.is_final(*state).unwrap());
    }
}
