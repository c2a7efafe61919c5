ghost use Rattle.std.specs.Prelude.{◌≡◌, ℕ, ◌+◌, ◌-◌, ◌*◌, ◌<◌, ◌≤◌, List, length, slice_index, false, cond};
ghost use Rattle.tables.specs.Book.{laid, place};
ghost use Rattle.tables.specs.Sheet.{mean_at};
ghost use Rattle.minimize.specs.Rows.{Laid, rows_table};
ghost use Rattle.minimize.specs.Slices.{laid_rows};
ghost use Rattle.minimize.specs.Steps.{none, Pushes, PushedWeights};
ghost use Rattle.minimize.specs.Pushing.{FirstLetter, Known, Rounding, Rounded, Fresh, PushedBelow, pushed_arc, pushed_start};

use crate::rows::{NONE, Rows};
use weights::Weight;

// The first letter, rising, by which a state leads to a state of that distance.
fn first_letter<W: Weight>(
    rows: Rows<'_, W>,
    distances: &[u16],
    state: u16,
    distance: u16,
) -> Option<u8>
    requires laid { Laid W.kind (laid_rows rows) }
    requires room { rows.count ≤ length distances.now }
    requires inside { state < rows.count }
    ensures { FirstLetter (rows_table W.kind (laid_rows rows.entry)) (slice_index distances.now) state distance result }
{
    for letter in 0..rows.letters {
        if distances[usize::from(rows.target(state, letter))] == distance {
            return Some(letter);
        }
    }
    None
}

// Gives a state that has no distance this one, with its push, if it leads to a state of the distance before.
fn settle<W: Weight>(
    rows: Rows<'_, W>,
    distances: &mut [u16],
    pushes: &mut [W],
    state: u16,
    distance: u16,
) -> bool
    requires laid { Laid W.kind (laid_rows rows) }
    requires distances { rows.count ≤ length distances.old }
    requires pushes { rows.count ≤ length pushes.old }
    requires inside { state < rows.count }
    requires some { 1 ≤ distance }
    requires few { distance < rows.count }
    requires known { Rounding W.kind.group (rows_table W.kind (laid_rows rows)) distance state (slice_index distances.old) (mean_at W.kind pushes.old) }
    ensures known { Rounding W.kind.group (rows_table W.kind (laid_rows rows.entry)) distance (state + 1) (slice_index distances.new) (mean_at W.kind pushes.new) }
    ensures stale { result ≡ false → slice_index distances.new ≡ slice_index distances.old }
{
    if distances[usize::from(state)] != NONE {
        return false;
    }
    match first_letter(rows, distances, state, distance - 1) {
        Some(letter) => {
            let next = pushes[usize::from(rows.target(state, letter))];
            let push = rows.weight(state, letter).times(next);
            distances[usize::from(state)] = distance;
            pushes[usize::from(state)] = push;
            true
        }
        None => false,
    }
}

// One round: each state without a distance that leads to a state of the distance before gets this one. Whether there was such a state.
fn round<W: Weight>(
    rows: Rows<'_, W>,
    distances: &mut [u16],
    pushes: &mut [W],
    distance: u16,
) -> bool
    requires laid { Laid W.kind (laid_rows rows) }
    requires distances { rows.count ≤ length distances.old }
    requires pushes { rows.count ≤ length pushes.old }
    requires some { 1 ≤ distance }
    requires few { distance < rows.count }
    requires known { Rounded W.kind.group (rows_table W.kind (laid_rows rows)) distance (slice_index distances.old) (mean_at W.kind pushes.old) }
    ensures known { Rounded W.kind.group (rows_table W.kind (laid_rows rows.entry)) (distance + 1) (slice_index distances.new) (mean_at W.kind pushes.new) }
    ensures stale { Fresh result distance rows.entry.count (slice_index distances.new) }
{
    let mut met = false;
    for state in 0..rows.count {
        if settle(rows, distances, pushes, state, distance) {
            met = true;
        }
    }
    met
}

// The distance that a state has before the first round.
fn first_distance<W: Weight>(rows: Rows<'_, W>, state: u16) -> u16
    requires laid { Laid W.kind (laid_rows rows) }
    requires inside { state < rows.count }
    ensures { result ≡ cond ((rows_table W.kind (laid_rows rows.entry)).final state) 0 none }
{
    if rows.is_final(state) { 0 } else { NONE }
}

// Gives final states distance 0, the others none, and all of them push one.
fn begin<W: Weight>(rows: Rows<'_, W>, distances: &mut [u16], pushes: &mut [W])
    requires laid { Laid W.kind (laid_rows rows) }
    requires distances { rows.count ≤ length distances.old }
    requires pushes { rows.count ≤ length pushes.old }
    ensures { Rounded W.kind.group (rows_table W.kind (laid_rows rows.entry)) 1 (slice_index distances.new) (mean_at W.kind pushes.new) }
{
    for state in 0..rows.count {
        distances[usize::from(state)] = first_distance(rows, state);
        pushes[usize::from(state)] = W::one();
    }
}

// The length of the smallest word that is accepted from each state, and the push of the state, the weight of that word. A dead state
// has no distance, and push one.
pub(crate) fn find_pushes<W: Weight>(rows: Rows<'_, W>, distances: &mut [u16], pushes: &mut [W])
    requires laid { Laid W.kind (laid_rows rows) }
    requires distances { rows.count ≤ length distances.old }
    requires pushes { rows.count ≤ length pushes.old }
    ensures pushes { Pushes W.kind.group (rows_table W.kind (laid_rows rows.entry)) (slice_index distances.new) (mean_at W.kind pushes.new) }
    ensures kept_distances { length distances.new ≡ length distances.old }
    ensures kept_pushes { length pushes.new ≡ length pushes.old }
{
    begin(rows, distances, pushes);
    // A smallest word visits no state twice, so it has fewer letters than there are states.
    for distance in 1..rows.count {
        if !round(rows, distances, pushes, distance) {
            return;
        }
    }
}

// What an arc weighs once it is pushed, where the inverse of its own state's push is given.
fn pushed_arc<W: Weight>(inverse: W, weight: W, target: u16, distances: &[u16], pushes: &[W]) -> W
    requires distance { target < length distances.now }
    requires push { target < length pushes.now }
    ensures { W.kind.mean result ≡ pushed_arc W.kind.group (slice_index distances.now) (mean_at W.kind pushes.now) (W.kind.mean inverse) (W.kind.mean weight) target }
{
    let target = usize::from(target);
    if distances[target] == NONE {
        W::one()
    } else {
        inverse.times(weight.times(pushes[target]))
    }
}

// What a start weighs once it is pushed.
fn pushed_start<W: Weight>(weight: W, target: u16, distances: &[u16], pushes: &[W]) -> W
    requires distance { target < length distances.now }
    requires push { target < length pushes.now }
    ensures { W.kind.mean result ≡ pushed_start W.kind.group (slice_index distances.now) (mean_at W.kind pushes.now) (W.kind.mean weight) target }
{
    let target = usize::from(target);
    if distances[target] == NONE {
        W::one()
    } else {
        weight.times(pushes[target])
    }
}

// Pushes the arcs of a state. Its push is inverted once, not for each arc: an inverse may cost many products.
fn push_row<W: Weight>(
    targets: &[u16],
    weights: &mut [W],
    letters: u8,
    state: u16,
    distances: &[u16],
    pushes: &[W],
)
    requires targets { place letters state letters ≤ length targets.now }
    requires weights { place letters state letters ≤ length weights.old }
    requires inside { state < length pushes.now }
    requires distances { (a : ℕ) → a < letters → slice_index targets.now (place letters state a) < length distances.now }
    requires pushes { (a : ℕ) → a < letters → slice_index targets.now (place letters state a) < length pushes.now }
    ensures pushed { (all : List W) →
        PushedBelow W.kind letters (slice_index distances.now) (mean_at W.kind pushes.now) targets.now all weights.old (state * letters) →
        PushedBelow W.kind letters (slice_index distances.now) (mean_at W.kind pushes.now) targets.now all weights.new ((state + 1) * letters) }
    ensures kept { length weights.new ≡ length weights.old }
{
    let inverse = pushes[usize::from(state)].inverse();
    let from = 1 + usize::from(state) * usize::from(letters);
    for letter in 0..letters {
        let at = from + usize::from(letter);
        weights[at] = pushed_arc(inverse, weights[at], targets[at], distances, pushes);
    }
}

// Pushes the weights of a table: an arc takes along the push of the state that it leads to, and leaves that of its own state.
pub(crate) fn push_weights<W: Weight>(
    targets: &[u16],
    weights: &mut [W],
    letters: u8,
    count: u16,
    distances: &[u16],
    pushes: &[W],
)
    requires letters { 1 ≤ letters }
    requires targets { 1 + count * letters ≤ length targets.now }
    requires weights { 1 + count * letters ≤ length weights.old }
    requires distances { count ≤ length distances.now }
    requires pushes { count ≤ length pushes.now }
    requires start_inside { slice_index targets.now 0 < count }
    requires target_inside { (q a : ℕ) → q < count → a < letters → slice_index targets.now (place letters q a) < count }
    ensures pushed { (ms : List ℕ) →
        PushedWeights W.kind.group (rows_table W.kind (laid targets.now weights.old ms letters count)) (slice_index distances.now) (mean_at W.kind pushes.now)
        (rows_table W.kind (laid targets.now weights.new ms letters count)) }
    ensures kept { length weights.new ≡ length weights.old }
{
    for state in 0..count {
        push_row(targets, weights, letters, state, distances, pushes);
    }
    weights[0] = pushed_start(weights[0], targets[0], distances, pushes);
}
