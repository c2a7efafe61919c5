ghost use Rattle.std.specs.Prelude.{◌≡◌, ℕ, ◌+◌, ◌*◌, ◌<◌, ◌≤◌, true, length, slice_index};
ghost use Rattle.tables.specs.Book.{laid, place};
ghost use Rattle.tables.specs.Sheet.{mean_at};
ghost use Rattle.theory.specs.Hyper.{count_below};
ghost use Rattle.minimize.specs.Rows.{Laid, rows_table};
ghost use Rattle.minimize.specs.Slices.{laid_rows};
ghost use Rattle.minimize.specs.Choosing.{is_kept, ToKept, Redirected};
ghost use Rattle.minimize.specs.Redirecting.{kept_of, number_in, moved_to, weighed_to, given, Ready, RowTo, RowsTo};

use crate::rows::{Rows, place};
use weights::Weight;

// Whether a state is kept.
fn is_kept(kernel: &[u16], representatives: &[u16], state: u16) -> bool
    requires kernel_room { state < length kernel.now }
    requires representatives_room { state < length representatives.now }
    ensures { result ≡ is_kept kernel.now representatives.now state }
{
    kernel[usize::from(state)] == 1 || representatives[usize::from(state)] == state
}

// Numbers the kept states in their order. The answer is how many there are. A state that is not kept gets the next one's number.
fn number_kept(count: u16, kernel: &[u16], representatives: &[u16], numbers: &mut [u16]) -> u16
    requires kernel_room { count ≤ length kernel.now }
    requires representatives_room { count ≤ length representatives.now }
    requires numbers_room { count ≤ length numbers.old }
    ensures count { result ≡ count_below (is_kept kernel.now representatives.now) count }
    ensures numbers { (q : ℕ) → q < count → slice_index numbers.new q ≡ count_below (is_kept kernel.now representatives.now) q }
{
    let mut kept = 0;
    for state in 0..count {
        numbers[usize::from(state)] = kept;
        if is_kept(kernel, representatives, state) {
            kept += 1;
        }
    }
    kept
}

// A table with what its arcs are redirected by.
#[derive(Clone, Copy)]
struct Redirection<'a, W> {
    rows: Rows<'a, W>,
    kernel: &'a [u16],
    representatives: &'a [u16],
    factors: &'a [W],
    numbers: &'a [u16],
}

impl<W: Weight> Redirection<'_, W> {
    // Whether a state is kept.
    fn is_kept(&self, state: u16) -> bool
        requires ready { Ready W.kind self.now }
        requires inside { state < self.now.rows.count }
        ensures { result ≡ kept_of self.now state }
    {
        is_kept(self.kernel, self.representatives, state)
    }

    // The number of the state that what leads to a state leads to now.
    fn target(&self, state: u16) -> u16
        requires ready { Ready W.kind self.now }
        requires inside { state < self.now.rows.count }
        ensures { result ≡ number_in self.now (moved_to self.now state) }
    {
        let moved = if self.is_kept(state) {
            state
        } else {
            self.representatives[usize::from(state)]
        };
        self.numbers[usize::from(moved)]
    }

    // What that weighs now.
    fn weight(&self, state: u16, weight: W) -> W
        requires ready { Ready W.kind self.now }
        requires inside { state < self.now.rows.count }
        ensures { W.kind.mean result ≡ weighed_to W.kind self.now state (W.kind.mean weight) }
    {
        if self.is_kept(state) {
            weight
        } else {
            weight.times(self.factors[usize::from(state)])
        }
    }

    // Writes the row of a state.
    #[tactic(auto, using(crate::proofs::Redirecting::row_more))]
    fn write_row(&self, state: u16, targets: &mut [u16], weights: &mut [W])
        requires ready { Ready W.kind self.now }
        requires inside { state < self.now.rows.count }
        requires target_room { place self.now.rows.letters (number_in self.now state) self.now.rows.letters ≤ length targets.old }
        requires weight_room { place self.now.rows.letters (number_in self.now state) self.now.rows.letters ≤ length weights.old }
        ensures { RowTo W.kind self.now state (number_in self.now state) self.now.rows.letters targets.old targets.new weights.old weights.new }
    {
        let number = self.numbers[usize::from(state)];
        for letter in 0..self.rows.letters {
            let at = place(self.rows.letters, number, letter);
            let to = self.rows.target(state, letter);
            targets[at] = self.target(to);
            weights[at] = self.weight(to, self.rows.weight(state, letter));
        }
    }

    // Writes the start.
    #[tactic(auto, using(crate::proofs::Memory::mean_set_same, crate::proofs::Memory::mean_read))]
    fn write_start(&self, targets: &mut [u16], weights: &mut [W])
        requires ready { Ready W.kind self.now }
        requires target_room { 0 < length targets.old }
        requires weight_room { 0 < length weights.old }
        ensures target { slice_index targets.new 0 ≡ number_in self.now (moved_to self.now (given W.kind self.now).start) }
        ensures weight { mean_at W.kind weights.new 0 ≡ weighed_to W.kind self.now (given W.kind self.now).start (given W.kind self.now).start_weight }
    {
        let start = self.rows.targets[0];
        targets[0] = self.target(start);
        weights[0] = self.weight(start, self.rows.weights[0]);
    }

    // Writes the start and the rows and marks of the kept states.
    #[tactic(auto, using(crate::proofs::Redirecting::row_room, crate::proofs::Keeping::kept_few))]
    fn write(&self, targets: &mut [u16], weights: &mut [W], marks: &mut [u8])
        requires ready { Ready W.kind self.now }
        requires target_room { 1 + self.now.rows.count * self.now.rows.letters ≤ length targets.old }
        requires weight_room { 1 + self.now.rows.count * self.now.rows.letters ≤ length weights.old }
        requires mark_room { self.now.rows.count ≤ length marks.old }
        ensures { RowsTo W.kind self.now self.now.rows.count targets.new weights.new marks.new }
    {
        self.write_start(targets, weights);
        for state in 0..self.rows.count {
            if self.is_kept(state) {
                self.write_row(state, targets, weights);
                let number = self.numbers[usize::from(state)];
                marks[usize::from(number)] = self.rows.marks[usize::from(state)];
            }
        }
    }
}

// Writes the table that is left where what leads to a state that is not kept is redirected to its representative, and the kept states
// are numbered in their order. The answer is how many they are. Marks are copied whole.
#[tactic(auto, using(crate::proofs::Redirecting::redirected_rows))]
pub(crate) fn redirect<W: Weight>(
    rows: Rows<'_, W>,
    kernel: &[u16],
    representatives: &[u16],
    factors: &[W],
    numbers: &mut [u16],
    targets: &mut [u16],
    weights: &mut [W],
    marks: &mut [u8],
) -> u16
    requires laid { Laid W.kind (laid_rows rows) }
    requires kernel_room { rows.count ≤ length kernel.now }
    requires representatives_room { rows.count ≤ length representatives.now }
    requires factors_room { rows.count ≤ length factors.now }
    requires numbers_room { rows.count ≤ length numbers.old }
    requires target_room { 1 + rows.count * rows.letters ≤ length targets.old }
    requires weight_room { 1 + rows.count * rows.letters ≤ length weights.old }
    requires mark_room { rows.count ≤ length marks.old }
    requires to_kept { ToKept rows.count kernel.now representatives.now }
    ensures count { result ≡ count_below (is_kept kernel.now representatives.now) rows.entry.count }
    ensures laid { Laid W.kind (laid targets.new weights.new marks.new rows.entry.letters result) }
    ensures table { Redirected W.kind.group (rows_table W.kind (laid_rows rows.entry)) (rows_table W.kind (laid targets.new weights.new marks.new rows.entry.letters result)) (is_kept kernel.now representatives.now) (slice_index representatives.now) (mean_at W.kind factors.now) }
    ensures marks { (q : ℕ) → q < rows.entry.count → is_kept kernel.now representatives.now q ≡ true → slice_index marks.new (count_below (is_kept kernel.now representatives.now) q) ≡ slice_index rows.entry.marks.now q }
{
    let kept = number_kept(rows.count, kernel, representatives, numbers);
    let redirection = Redirection {
        rows,
        kernel,
        representatives,
        factors,
        numbers,
    };
    redirection.write(targets, weights, marks);
    kept
}
