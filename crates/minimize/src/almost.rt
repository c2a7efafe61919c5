ghost use Rattle.std.specs.Prelude.{◌≡◌, ℕ, ◌*◌, ◌<◌, ◌≤◌, length, slice_index};
ghost use Rattle.tables.specs.Sheet.{mean_at};
ghost use Rattle.theory.specs.Series.{Equivalent};
ghost use Rattle.theory.specs.Kernel.{CoKernel, CoPreamble};
ghost use Rattle.minimize.specs.Rows.{Laid, rows_table};
ghost use Rattle.minimize.specs.Slices.{laid_rows};
ghost use Rattle.minimize.specs.Compile.{Tells};
ghost use Rattle.minimize.specs.Steps.{AlmostClasses, has_mark};
ghost use Rattle.minimize.specs.Almost.{Ready, read_table, read_weight, read_base, read_label, read_element, Regrouped};
ghost use Rattle.minimize.specs.Filling.{FilledRow, Filled};

use crate::group::group;
use crate::rows::{NONE, Rows};
use weights::Weight;

// A table, with a label and a factor towards it for each state.
#[derive(Clone, Copy)]
struct Reading<'a, W> {
    rows: Rows<'a, W>,
    co_kernel: &'a [u16],
    labels: &'a [u16],
    factors: &'a [W],
}

impl<W: Weight> Reading<'_, W> {
    // Whether an arc leads to a co-kernel state.
    fn leads_on(&self, state: u16, letter: u8) -> bool
        requires ready { Ready W.kind self.now }
        requires inside { state < self.now.rows.count }
        requires letter { letter < self.now.rows.letters }
        ensures { result ≡ has_mark self.now.co_kernel.now ((read_table W.kind self.now).target state letter) }
    {
        self.co_kernel[usize::from(self.rows.target(state, letter))] == 1
    }

    // What an arc weighs towards the state that its target's label names.
    fn weight(&self, state: u16, letter: u8) -> W
        requires ready { Ready W.kind self.now }
        requires inside { state < self.now.rows.count }
        requires letter { letter < self.now.rows.letters }
        ensures { W.kind.mean result ≡ read_weight W.kind self.now state letter }
    {
        let factor = self.factors[usize::from(self.rows.target(state, letter))];
        self.rows.weight(state, letter).times(factor)
    }

    // The same for the last arc of a state that leads to a co-kernel state. The state's row is divided by it.
    fn base(&self, state: u16) -> W
        requires ready { Ready W.kind self.now }
        requires inside { state < self.now.rows.count }
        ensures { W.kind.mean result ≡ read_base W.kind self.now state self.now.rows.letters }
    {
        let mut base = W::one();
        for letter in 0..self.rows.letters {
            if self.leads_on(state, letter) {
                base = self.weight(state, letter);
            }
        }
        base
    }

    // The label in the row of a state. An arc to a co-preamble state has none.
    fn row_label(&self, state: u16, letter: u8) -> u16
        requires ready { Ready W.kind self.now }
        requires inside { state < self.now.rows.count }
        requires letter { letter < self.now.rows.letters }
        ensures { result ≡ read_label W.kind self.now state letter }
    {
        if self.leads_on(state, letter) {
            self.labels[usize::from(self.rows.target(state, letter))]
        } else {
            NONE
        }
    }

    // The element in the row of a state.
    fn row_element(&self, state: u16, letter: u8, base: W) -> W
        requires ready { Ready W.kind self.now }
        requires inside { state < self.now.rows.count }
        requires letter { letter < self.now.rows.letters }
        requires base { W.kind.mean base ≡ read_base W.kind self.now state self.now.rows.letters }
        ensures { W.kind.mean result ≡ read_element W.kind self.now state letter }
    {
        if self.leads_on(state, letter) {
            base.inverse().times(self.weight(state, letter))
        } else {
            W::one()
        }
    }

    // Fills the row of a state.
    fn fill_row(&self, state: u16, base: W, row_labels: &mut [u16], row_elements: &mut [W])
        requires ready { Ready W.kind self.now }
        requires inside { state < self.now.rows.count }
        requires base { W.kind.mean base ≡ read_base W.kind self.now state self.now.rows.letters }
        requires label_room { self.now.rows.count * self.now.rows.letters ≤ length row_labels.old }
        requires element_room { self.now.rows.count * self.now.rows.letters ≤ length row_elements.old }
        ensures { FilledRow W.kind self.now.rows.letters (read_label W.kind self.now) (read_element W.kind self.now) state self.now.rows.letters row_labels.old row_elements.old row_labels.new row_elements.new }
    {
        let from = usize::from(state) * usize::from(self.rows.letters);
        for letter in 0..self.rows.letters {
            let at = from + usize::from(letter);
            row_labels[at] = self.row_label(state, letter);
            row_elements[at] = self.row_element(state, letter, base);
        }
    }

    // Fills the rows of all states, and keeps what each was divided by.
    fn fill_rows(&self, row_labels: &mut [u16], row_elements: &mut [W], bases: &mut [W])
        requires ready { Ready W.kind self.now }
        requires label_room { self.now.rows.count * self.now.rows.letters ≤ length row_labels.old }
        requires element_room { self.now.rows.count * self.now.rows.letters ≤ length row_elements.old }
        requires base_room { self.now.rows.count ≤ length bases.old }
        ensures rows { Filled W.kind self.now.rows.letters (read_label W.kind self.now) (read_element W.kind self.now) self.now.rows.count row_labels.new row_elements.new }
        ensures bases { (q : ℕ) → q < self.now.rows.count → mean_at W.kind bases.new q ≡ read_base W.kind self.now q self.now.rows.letters }
    {
        for state in 0..self.rows.count {
            let base = self.base(state);
            bases[usize::from(state)] = base;
            self.fill_row(state, base, row_labels, row_elements);
        }
    }
}

// The factor of a state towards the state that its label names: their rows are equal, each divided by its base.
fn quotient<W: Weight>(bases: &[W], labels: &[u16], state: u16) -> W
    requires label { state < length labels.now }
    requires state { state < length bases.now }
    requires first { slice_index labels.now state < length bases.now }
    ensures { W.kind.mean result ≡ W.kind.group.mul (mean_at W.kind bases.now state) (W.kind.group.inv (mean_at W.kind bases.now (slice_index labels.now state))) }
{
    let first = labels[usize::from(state)];
    bases[usize::from(state)].times(bases[usize::from(first)].inverse())
}

// Gives each state its factor.
fn write_factors<W: Weight>(count: u16, bases: &[W], labels: &[u16], factors: &mut [W])
    requires base_room { count ≤ length bases.now }
    requires label_room { count ≤ length labels.now }
    requires factor_room { count ≤ length factors.old }
    requires labels_inside { (q : ℕ) → q < count → slice_index labels.now q < count }
    ensures { (q : ℕ) → q < count →
        mean_at W.kind factors.new q ≡ W.kind.group.mul (mean_at W.kind bases.now q) (W.kind.group.inv (mean_at W.kind bases.now (slice_index labels.now q))) }
{
    for state in 0..count {
        factors[usize::from(state)] = quotient(bases, labels, state);
    }
}

// One round: states with equal rows get one label, the first of them. Told is how many labels there are.
fn regroup<W: Weight>(
    rows: Rows<'_, W>,
    co_kernel: &[u16],
    row_labels: &mut [u16],
    row_elements: &mut [W],
    bases: &mut [W],
    heads: &mut [u16],
    links: &mut [u16],
    keys: &mut [u16],
    labels: &mut [u16],
    factors: &mut [W],
) -> u16
    requires laid { Laid W.kind (laid_rows rows) }
    requires co_kernel_room { rows.count ≤ length co_kernel.now }
    requires row_label_room { rows.count * rows.letters ≤ length row_labels.old }
    requires row_element_room { rows.count * rows.letters ≤ length row_elements.old }
    requires base_room { rows.count ≤ length bases.old }
    requires some_bucket { 1 ≤ length heads.old }
    requires link_room { rows.count ≤ length links.old }
    requires key_room { rows.count ≤ length keys.old }
    requires label_room { rows.count ≤ length labels.old }
    requires factor_room { rows.count ≤ length factors.old }
    ensures { Regrouped W.kind.group (rows_table W.kind (laid_rows rows.entry)) (has_mark co_kernel.now) (slice_index labels.old) (mean_at W.kind factors.old) (slice_index labels.new) (mean_at W.kind factors.new) result }
{
    let reading = Reading {
        rows,
        co_kernel,
        labels,
        factors,
    };
    reading.fill_rows(row_labels, row_elements, bases);
    keys.fill(0);
    let found = group(
        rows.letters,
        rows.count,
        keys,
        row_labels,
        row_elements,
        heads,
        links,
        labels,
    );
    write_factors(rows.count, bases, labels, factors);
    found
}

// At first each state has its own label, and factor one.
fn begin<W: Weight>(count: u16, labels: &mut [u16], factors: &mut [W])
    requires label_room { count ≤ length labels.old }
    requires factor_room { count ≤ length factors.old }
    ensures labels { (q : ℕ) → q < count → slice_index labels.new q ≡ q }
    ensures factors { (q : ℕ) → q < count → mean_at W.kind factors.new q ≡ W.kind.group.one }
{
    for state in 0..count {
        labels[usize::from(state)] = state;
        factors[usize::from(state)] = W::one();
    }
}

// Gives each state of a table, no two of whose states are equivalent, the first state that is almost-equivalent to it as its label, and
// its factor towards that state.
pub(crate) fn find_almost<W: Weight>(
    rows: Rows<'_, W>,
    co_kernel: &[u16],
    row_labels: &mut [u16],
    row_elements: &mut [W],
    bases: &mut [W],
    heads: &mut [u16],
    links: &mut [u16],
    keys: &mut [u16],
    labels: &mut [u16],
    factors: &mut [W],
)
    requires laid { Laid W.kind (laid_rows rows) }
    requires co_kernel { (q : ℕ) → q < rows.count → Tells (has_mark co_kernel.now q) (CoKernel (rows_table W.kind (laid_rows rows)) q) (CoPreamble (rows_table W.kind (laid_rows rows)) q) }
    requires apart { (q p : ℕ) → q < rows.count → p < rows.count → Equivalent W.kind.group (rows_table W.kind (laid_rows rows)) q p → q ≡ p }
    requires co_kernel_room { rows.count ≤ length co_kernel.now }
    requires row_label_room { rows.count * rows.letters ≤ length row_labels.old }
    requires row_element_room { rows.count * rows.letters ≤ length row_elements.old }
    requires base_room { rows.count ≤ length bases.old }
    requires some_bucket { 1 ≤ length heads.old }
    requires link_room { rows.count ≤ length links.old }
    requires key_room { rows.count ≤ length keys.old }
    requires label_room { rows.count ≤ length labels.old }
    requires factor_room { rows.count ≤ length factors.old }
    ensures almost { AlmostClasses W.kind.group (rows_table W.kind (laid_rows rows.entry)) (slice_index labels.new) (mean_at W.kind factors.new) }
    ensures row_labels { length row_labels.new ≡ length row_labels.old }
    ensures row_elements { length row_elements.new ≡ length row_elements.old }
    ensures bases { length bases.new ≡ length bases.old }
    ensures heads { length heads.new ≡ length heads.old }
    ensures links { length links.new ≡ length links.old }
    ensures keys { length keys.new ≡ length keys.old }
    ensures labels { length labels.new ≡ length labels.old }
    ensures factors { length factors.new ≡ length factors.old }
{
    begin(rows.count, labels, factors);
    let mut known = rows.count;
    loop {
        let found = regroup(
            rows,
            co_kernel,
            row_labels,
            row_elements,
            bases,
            heads,
            links,
            keys,
            labels,
            factors,
        );
        if found == known {
            break;
        }
        known = found;
    }
}
