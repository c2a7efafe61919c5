use reference::Compiled;
use weights::Weight;

// What tables are counted by.
#[derive(Clone, Copy, PartialEq, Eq, Debug)]
pub(crate) enum Count {
    Tables,
    States,
    LeastStates,
    HyperStates,
    Rings,
    Folds,
    Boths,
    Piles,
    Calls,
    RefusedCalls,
    Refused,
    Redrawn,
    RedrawnOtherwise,
    NoStates,
    ShortMemories,
    FullBooks,
    DeadStarts,
    Redirected,
    RedirectedStates,
    Factors,
    KernelMates,
    CoPreamble,
    PreambleStates,
}

// Each of them, with its name.
pub(crate) const COUNTS: [(Count, &str); 23] = [
    (Count::Tables, "tables"),
    (Count::States, "their states"),
    (Count::LeastStates, "states of the least tables"),
    (Count::HyperStates, "states of the hyper tables"),
    (Count::Rings, "rings"),
    (Count::Folds, "folds"),
    (Count::Boths, "boths"),
    (Count::Piles, "piles of fold and both"),
    (Count::Calls, "calls of their lists"),
    (Count::RefusedCalls, "of these refused"),
    (Count::Refused, "books that refused a call"),
    (Count::Redrawn, "arcs drawn again"),
    (
        Count::RedrawnOtherwise,
        "of these with another target or weight",
    ),
    (Count::NoStates, "books with no states"),
    (Count::ShortMemories, "books over memories too short"),
    (Count::FullBooks, "books of 4095 states"),
    (Count::DeadStarts, "dead starts"),
    (Count::Redirected, "tables with redirected states"),
    (Count::RedirectedStates, "redirected states"),
    (Count::Factors, "tables with a factor other than one"),
    (
        Count::KernelMates,
        "tables with almost-equivalent kernel states",
    ),
    (Count::CoPreamble, "tables with live co-preamble states"),
    (Count::PreambleStates, "tables with preamble states"),
];

#[derive(Clone, Copy)]
pub(crate) struct Tally {
    counts: [u64; 23],
}

impl Tally {
    pub(crate) fn new() -> Tally {
        Tally { counts: [0; 23] }
    }

    pub(crate) fn get(&self, count: Count) -> u64 {
        self.counts[count as usize]
    }

    pub(crate) fn add(&mut self, count: Count, by: usize) {
        let counted = &mut self.counts[count as usize];
        *counted = counted.saturating_add(by as u64);
    }

    // One more, if so.
    pub(crate) fn add_if(&mut self, count: Count, holds: bool) {
        self.add(count, usize::from(holds));
    }

    // Counts a table by what was made of it.
    pub(crate) fn add_table<W: Weight>(&mut self, states: u16, made: &Compiled<W>) {
        let least = made.least.states.len();
        let hyper = made.hyper.states.len();
        self.add(Count::Tables, 1);
        self.add(Count::States, usize::from(states));
        self.add(Count::LeastStates, least);
        self.add(Count::HyperStates, hyper);
        self.add_if(Count::Redirected, hyper < least);
        self.add(Count::RedirectedStates, least.saturating_sub(hyper));
        self.add_if(Count::DeadStarts, has_dead_start(made));
        self.add_if(Count::Factors, has_factor(made));
        self.add_if(Count::KernelMates, has_kernel_mates(made));
        self.add_if(Count::CoPreamble, co_preamble(made) > 1);
        self.add_if(Count::PreambleStates, made.kernel_count < least);
    }
}

// A dead start is equivalent to all that it leads to.
fn has_dead_start<W: Weight>(made: &Compiled<W>) -> bool {
    match made.least.states.first() {
        Some(state) => made.least.states.len() == 1 && !state.is_final,
        None => false,
    }
}

fn has_factor<W: Weight>(made: &Compiled<W>) -> bool {
    for factor in made.factors.iter() {
        if !factor.same(W::one()) {
            return true;
        }
    }
    false
}

// Whether a kernel state has another as its representative.
fn has_kernel_mates<W: Weight>(made: &Compiled<W>) -> bool {
    for (state, representative) in made.representatives.iter().enumerate() {
        if *representative != state && made.kernel.get(state).copied().unwrap_or(false) {
            return true;
        }
    }
    false
}

// How many states are co-preamble: one of them may be dead, and no two.
fn co_preamble<W: Weight>(made: &Compiled<W>) -> usize {
    made.co_kernel
        .iter()
        .filter(|co_kernel| !**co_kernel)
        .count()
}
