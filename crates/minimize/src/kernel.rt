ghost use Rattle.std.specs.Prelude.{◌≡◌, ℕ, ◌+◌, ◌*◌, ◌%◌, ◌<◌, ◌≤◌, ◌==◌, cond, nat_lt, length, slice_index, Decides};
ghost use Rattle.theory.specs.Runs.{Reachable};
ghost use Rattle.theory.specs.Kernel.{Kernel, Preamble, CoKernel, CoPreamble};
ghost use Rattle.theory.specs.Hyper.{count_below};
ghost use Rattle.minimize.specs.Rows.{Laid, rows_table};
ghost use Rattle.minimize.specs.Slices.{laid_rows};
ghost use Rattle.minimize.specs.Compile.{Tells};
ghost use Rattle.minimize.specs.Steps.{none, has_mark};
ghost use Rattle.minimize.specs.Peeling.{Arc, Back, TellsDead, Held, Holding, Peeled, Added};

use crate::rows::{NONE, Rows};
use weights::Weight;

// How many states are marked.
pub(crate) fn count_marked(marks: &[u16], count: u16) -> u16
    requires { count ≤ length marks.now }
    ensures { result ≡ count_below (has_mark marks.now) count }
{
    let mut total = 0;
    for state in 0..count {
        if marks[usize::from(state)] == 1 {
            total += 1;
        }
    }
    total
}

// Takes the marks of the states that are not held.
fn unmark(marks: &mut [u16], held: &[u16], count: u16)
    requires room { count ≤ length marks.old }
    requires held_room { count ≤ length held.now }
    ensures marks { (q : ℕ) → q < count → slice_index marks.new q ≡ cond (has_mark held.now q) (slice_index marks.old q) 0 }
    ensures length { length marks.new ≡ length marks.old }
{
    for state in 0..usize::from(count) {
        if held[state] != 1 {
            marks[state] = 0;
        }
    }
}

// Takes the marks of the states that are not held, and tells whether one was marked.
fn keep_held(marks: &mut [u16], held: &[u16], count: u16) -> bool
    requires room { count ≤ length marks.old }
    requires held_room { count ≤ length held.now }
    ensures marks { (q : ℕ) → q < count → slice_index marks.new q ≡ cond (has_mark held.now q) (slice_index marks.old q) 0 }
    ensures length { length marks.new ≡ length marks.old }
    ensures fewer { result ≡ nat_lt (count_below (has_mark marks.new) count) (count_below (has_mark marks.old) count) }
{
    let before = count_marked(marks, count);
    unmark(marks, held, count);
    count_marked(marks, count) < before
}

// Marks the targets of the arcs of a state.
fn hold_row<W: Weight>(rows: Rows<'_, W>, state: u16, held: &mut [u16])
    requires laid { Laid W.kind (laid_rows rows) }
    requires inside { state < rows.count }
    requires room { rows.count ≤ length held.old }
    ensures added { Added (Arc (rows_table W.kind (laid_rows rows.entry)) state) (has_mark held.old) (has_mark held.new) }
    ensures length { length held.new ≡ length held.old }
{
    for letter in 0..rows.letters {
        held[usize::from(rows.target(state, letter))] = 1;
    }
}

// Marks just the targets of the arcs of marked states.
#[tactic(auto, using(crate::proofs::Peeling::held_more, crate::proofs::Peeling::held_skip))]
fn hold_targets<W: Weight>(rows: Rows<'_, W>, marks: &[u16], held: &mut [u16])
    requires laid { Laid W.kind (laid_rows rows) }
    requires room { rows.count ≤ length marks.now }
    requires held_room { rows.count ≤ length held.old }
    ensures holding { Holding rows.entry.count rows.entry.count (Arc (rows_table W.kind (laid_rows rows.entry))) (has_mark marks.now) (has_mark held.new) }
    ensures length { length held.new ≡ length held.old }
{
    held.fill(0);
    for state in 0..rows.count {
        if marks[usize::from(state)] == 1 {
            hold_row(rows, state, held);
        }
    }
}

// Whether an arc of a state leads to a marked state.
fn leads_to_marked<W: Weight>(rows: Rows<'_, W>, state: u16, marks: &[u16]) -> bool
    requires laid { Laid W.kind (laid_rows rows) }
    requires inside { state < rows.count }
    requires room { rows.count ≤ length marks.now }
    ensures { Decides result (Held rows.entry.count (Back (rows_table W.kind (laid_rows rows.entry))) (has_mark marks.now) state) }
{
    for letter in 0..rows.letters {
        if marks[usize::from(rows.target(state, letter))] == 1 {
            return true;
        }
    }
    false
}

// Marks just the states that have an arc to a marked state.
fn hold_sources<W: Weight>(rows: Rows<'_, W>, marks: &[u16], held: &mut [u16])
    requires laid { Laid W.kind (laid_rows rows) }
    requires room { rows.count ≤ length marks.now }
    requires held_room { rows.count ≤ length held.old }
    ensures holding { Holding rows.entry.count rows.entry.count (Back (rows_table W.kind (laid_rows rows.entry))) (has_mark marks.now) (has_mark held.new) }
    ensures length { length held.new ≡ length held.old }
{
    for state in 0..rows.count {
        held[usize::from(state)] = u16::from(leads_to_marked(rows, state, marks));
    }
}

// Takes the marks of the states that no arc of a marked state leads to, and tells whether one was marked.
fn peel_kernel<W: Weight>(rows: Rows<'_, W>, kernel: &mut [u16], held: &mut [u16]) -> bool
    requires laid { Laid W.kind (laid_rows rows) }
    requires room { rows.count ≤ length kernel.old }
    requires held_room { rows.count ≤ length held.old }
    ensures peeled { Peeled rows.entry.count (Arc (rows_table W.kind (laid_rows rows.entry))) (has_mark kernel.old) (has_mark kernel.new) }
    ensures small { (q : ℕ) → q < rows.entry.count → slice_index kernel.new q ≤ slice_index kernel.old q }
    ensures length { (length kernel.new ≡ length kernel.old) × (length held.new ≡ length held.old) }
    ensures fewer { result ≡ nat_lt (count_below (has_mark kernel.new) rows.entry.count) (count_below (has_mark kernel.old) rows.entry.count) }
{
    hold_targets(rows, kernel, held);
    keep_held(kernel, held, rows.count)
}

// Takes the marks of the states without an arc to a marked state, and tells whether one was marked.
fn peel_co_kernel<W: Weight>(rows: Rows<'_, W>, co_kernel: &mut [u16], held: &mut [u16]) -> bool
    requires laid { Laid W.kind (laid_rows rows) }
    requires room { rows.count ≤ length co_kernel.old }
    requires held_room { rows.count ≤ length held.old }
    ensures peeled { Peeled rows.entry.count (Back (rows_table W.kind (laid_rows rows.entry))) (has_mark co_kernel.old) (has_mark co_kernel.new) }
    ensures small { (q : ℕ) → q < rows.entry.count → slice_index co_kernel.new q ≤ slice_index co_kernel.old q }
    ensures length { (length co_kernel.new ≡ length co_kernel.old) × (length held.new ≡ length held.old) }
    ensures fewer { result ≡ nat_lt (count_below (has_mark co_kernel.new) rows.entry.count) (count_below (has_mark co_kernel.old) rows.entry.count) }
{
    hold_sources(rows, co_kernel, held);
    keep_held(co_kernel, held, rows.count)
}

// Marks the kernel states by 1 and the preamble states by 0. A preamble state is one that is taken away when states without an arc
// from a state that remains are taken away again and again.
pub(crate) fn find_kernel<W: Weight>(rows: Rows<'_, W>, kernel: &mut [u16], held: &mut [u16])
    requires laid { Laid W.kind (laid_rows rows) }
    requires reached { (q : ℕ) → q < rows.count → Reachable (rows_table W.kind (laid_rows rows)) q }
    requires room { rows.count ≤ length kernel.old }
    requires held_room { rows.count ≤ length held.old }
    ensures told { (q : ℕ) → q < rows.entry.count →
        Tells (slice_index kernel.new q == 1) (Kernel (rows_table W.kind (laid_rows rows.entry)) q) (Preamble (rows_table W.kind (laid_rows rows.entry)) q) }
    ensures small { (q : ℕ) → q < rows.entry.count → slice_index kernel.new q ≤ 1 }
    ensures length { (length kernel.new ≡ length kernel.old) × (length held.new ≡ length held.old) }
{
    kernel.fill(1);
    'rounds: while peel_kernel(rows, kernel, held) {}
}

// Marks the live states by 1 and the dead ones by 0.
fn mark_live(distances: &[u16], count: u16, marks: &mut [u16])
    requires distance_room { count ≤ length distances.now }
    requires room { count ≤ length marks.old }
    ensures marks { (q : ℕ) → q < count → slice_index marks.new q ≡ cond (slice_index distances.now q == none) 0 1 }
    ensures length { length marks.new ≡ length marks.old }
{
    for state in 0..usize::from(count) {
        marks[state] = u16::from(distances[state] != NONE);
    }
}

// Marks the co-kernel states by 1 and the co-preamble states by 0, likewise by arcs to live states that remain.
pub(crate) fn find_co_kernel<W: Weight>(
    rows: Rows<'_, W>,
    distances: &[u16],
    co_kernel: &mut [u16],
    held: &mut [u16],
)
    requires laid { Laid W.kind (laid_rows rows) }
    requires distances { TellsDead (rows_table W.kind (laid_rows rows)) (slice_index distances.now) }
    requires distance_room { rows.count ≤ length distances.now }
    requires room { rows.count ≤ length co_kernel.old }
    requires held_room { rows.count ≤ length held.old }
    ensures told { (q : ℕ) → q < rows.entry.count →
        Tells (slice_index co_kernel.new q == 1) (CoKernel (rows_table W.kind (laid_rows rows.entry)) q) (CoPreamble (rows_table W.kind (laid_rows rows.entry)) q) }
    ensures small { (q : ℕ) → q < rows.entry.count → slice_index co_kernel.new q ≤ 1 }
    ensures length { (length co_kernel.new ≡ length co_kernel.old) × (length held.new ≡ length held.old) }
{
    mark_live(distances, rows.count, co_kernel);
    'rounds: while peel_co_kernel(rows, co_kernel, held) {}
}

// Adds to the marks, beside finality: 2 for kernel states and 4 for co-kernel states.
pub(crate) fn write_marks(marks: &mut [u8], count: u16, kernel: &[u16], co_kernel: &[u16])
    requires room { count ≤ length marks.old }
    requires kernel_room { count ≤ length kernel.now }
    requires co_kernel_room { count ≤ length co_kernel.now }
    requires kernel_small { (q : ℕ) → q < count → slice_index kernel.now q ≤ 1 }
    requires co_kernel_small { (q : ℕ) → q < count → slice_index co_kernel.now q ≤ 1 }
    ensures marks { (q : ℕ) → q < count →
        slice_index marks.new q ≡ slice_index marks.old q % 2 + 2 * slice_index kernel.now q + 4 * slice_index co_kernel.now q }
    ensures length { length marks.new ≡ length marks.old }
{
    for state in 0..usize::from(count) {
        marks[state] = marks[state] % 2 + 2 * (kernel[state] as u8) + 4 * (co_kernel[state] as u8);
    }
}
