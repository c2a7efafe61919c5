ghost use Rattle.std.specs.Prelude.{◌≡◌, ℕ, ◌+◌, ◌<◌, ◌≤◌, ◌≢◌, length, slice_index};
ghost use Rattle.minimize.specs.Steps.{none};
ghost use Rattle.minimize.specs.Choosing.{Leaders, Choices, ToKept, factor_towards, goes_first};

use crate::rows::NONE;
use weights::Weight;

// Whether a state goes before the leader that its label has so far.
fn goes_first(kernel: &[u16], state: u16, leader: u16) -> bool
    requires state { state < length kernel.now }
    requires leader { leader ≢ none → leader < length kernel.now }
    ensures { result ≡ goes_first kernel.now state leader }
{
    leader == NONE || (kernel[usize::from(state)] == 1 && kernel[usize::from(leader)] != 1)
}

// Makes the next state the leader of its label if it goes first.
fn meet(count: u16, labels: &[u16], kernel: &[u16], state: u16, leaders: &mut [u16])
    requires inside { state < count }
    requires labels_room { count ≤ length labels.now }
    requires kernel_room { count ≤ length kernel.now }
    requires leaders_room { count ≤ length leaders.old }
    requires labels_inside { (q : ℕ) → q < count → slice_index labels.now q < count }
    requires so_far { Leaders count labels.now kernel.now state leaders.old }
    ensures { Leaders count labels.now kernel.now (state + 1) leaders.new }
{
    let label = usize::from(labels[usize::from(state)]);
    if goes_first(kernel, state, leaders[label]) {
        leaders[label] = state;
    }
}

// Finds the leader of each label.
fn find_leaders(count: u16, labels: &[u16], kernel: &[u16], leaders: &mut [u16])
    requires labels_room { count ≤ length labels.now }
    requires kernel_room { count ≤ length kernel.now }
    requires leaders_room { count ≤ length leaders.old }
    requires labels_inside { (q : ℕ) → q < count → slice_index labels.now q < count }
    ensures { Leaders count labels.now kernel.now count leaders.new }
{
    leaders.fill(NONE);
    for state in 0..count {
        meet(count, labels, kernel, state, leaders);
    }
}

// The factor of a state towards its representative, from the factors of both towards one state; one where it doesn't matter.
fn factor_towards<W: Weight>(co_kernel: &[u16], factors: &[W], state: u16, representative: u16) -> W
    requires marked { state < length co_kernel.now }
    requires state { state < length factors.now }
    requires representative { representative < length factors.now }
    ensures { W.kind.mean result ≡ factor_towards W.kind co_kernel.now factors.now state representative }
{
    if co_kernel[usize::from(state)] == 1 {
        factors[usize::from(state)].times(factors[usize::from(representative)].inverse())
    } else {
        W::one()
    }
}

// The leader of a state's label.
fn leader_of(labels: &[u16], leaders: &[u16], state: u16) -> u16
    requires state { state < length labels.now }
    requires label { slice_index labels.now state < length leaders.now }
    ensures { result ≡ slice_index leaders.now (slice_index labels.now state) }
{
    leaders[usize::from(labels[usize::from(state)])]
}

// Chooses for each state the representative of its class of almost-equivalent states, a kernel state where the class has one, and the
// factor towards it. Given are a label for each class, and each state's factor towards one state of its class.
#[tactic(auto, using(crate::proofs::Choosing::looked_more))]
pub(crate) fn choose<W: Weight>(
    count: u16,
    labels: &[u16],
    factors: &[W],
    kernel: &[u16],
    co_kernel: &[u16],
    leaders: &mut [u16],
    representatives: &mut [u16],
    chosen: &mut [W],
)
    requires labels_room { count ≤ length labels.now }
    requires factors_room { count ≤ length factors.now }
    requires kernel_room { count ≤ length kernel.now }
    requires co_kernel_room { count ≤ length co_kernel.now }
    requires leaders_room { count ≤ length leaders.old }
    requires representatives_room { count ≤ length representatives.old }
    requires chosen_room { count ≤ length chosen.old }
    requires labels_inside { (q : ℕ) → q < count → slice_index labels.now q < count }
    ensures choices { Choices W.kind count labels.now factors.now kernel.now co_kernel.now representatives.new chosen.new }
    ensures kept { ToKept count kernel.now representatives.new }
{
    find_leaders(count, labels, kernel, leaders);
    for state in 0..count {
        let representative = leader_of(labels, leaders, state);
        representatives[usize::from(state)] = representative;
        chosen[usize::from(state)] = factor_towards(co_kernel, factors, state, representative);
    }
}
