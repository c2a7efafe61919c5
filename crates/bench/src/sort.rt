ghost use Rattle.std.specs.Prelude.{◌<◌};

use crate::drawn::{Purpose, below, element, is_half};
use weights::Coded;

// How a table is drawn.
#[derive(Clone, Copy, PartialEq, Eq, Debug)]
pub(crate) enum Sort {
    // every letter leads from a state to the next, and only the last is final: the most rounds of push, kernel and co-kernel
    Line,
    // letter 0 leads to the next state, the others to one of eight at or before the state; only the last is final
    Chain,
    // the same, and the last state leads back to the first
    Cycle,
    // letter 0 leads to the next state and the others to a final state: the most rounds of the search for classes
    Ladder,
    // two lines that differ in whether their last state is final: the most rounds of the search for almost-equivalent states
    Twins,
    // arcs lead anywhere, and half of the states are final: few states merge
    Random,
    // sixteen states are equivalent each time, up to a factor: most states merge
    Copies,
    // fifteen layers before a kernel; in each layer many states are almost-equivalent
    Layers,
}

pub(crate) const SORTS: [Sort; 8] = [
    Sort::Line,
    Sort::Chain,
    Sort::Cycle,
    Sort::Ladder,
    Sort::Twins,
    Sort::Random,
    Sort::Copies,
    Sort::Layers,
];

impl Sort {
    pub(crate) fn name(self) -> &'static str {
        match self {
            Sort::Line => "line",
            Sort::Chain => "chain",
            Sort::Cycle => "cycle",
            Sort::Ladder => "ladder",
            Sort::Twins => "twins",
            Sort::Random => "random",
            Sort::Copies => "copies",
            Sort::Layers => "layers",
        }
    }
}

// A table of so many states, of which the last is the off state.
#[derive(Clone, Copy)]
pub(crate) struct Plan {
    pub(crate) sort: Sort,
    pub(crate) states: u16,
}

impl Plan {
    // How many states are drawn. It is also the number of the off state.
    pub(crate) fn drawn(&self) -> u16 {
        self.states.saturating_sub(1)
    }

    // The last state that is drawn.
    fn last(&self) -> u16 {
        self.states.saturating_sub(2)
    }

    // A sixteenth of the states.
    fn sixteenth(&self) -> u16
        ensures { 0 < result }
    {
        (self.drawn() / 16).max(1)
    }

    // The first state of the kernel, after fifteen layers.
    fn kernel(&self) -> u16 {
        self.sixteenth().saturating_mul(15)
    }

    // Where an arc leads.
    pub(crate) fn target(&self, state: u16, letter: u8) -> u16 {
        let next = state.saturating_add(1);
        let last = self.last();
        match self.sort {
            Sort::Line => next,
            Sort::Chain if letter == 0 => next,
            Sort::Cycle if letter == 0 => { if state < last { next } else { 0 } },
            Sort::Chain | Sort::Cycle => {
                state.saturating_sub(below(8, Purpose::Target, state, letter))
            },
            Sort::Ladder if state == last || letter > 0 => last,
            Sort::Ladder if next == last => self.drawn(),
            Sort::Ladder => next,
            Sort::Twins => {
                let other = u16::from(state == 0 && letter > 0);
                next.saturating_add(1).saturating_add(other).min(last)
            },
            Sort::Random => below(self.states, Purpose::Target, state, letter),
            Sort::Copies => self.copy_target(state, letter),
            Sort::Layers => self.layer_target(state, letter),
        }
    }

    // States that are equal modulo a sixteenth of the states are equivalent.
    fn copy_target(&self, state: u16, letter: u8) -> u16 {
        let classes = self.sixteenth();
        let class = below(classes, Purpose::Target, state % classes, letter);
        let copy = below(self.drawn() / classes, Purpose::Copy, state, letter);
        class.saturating_add(copy.saturating_mul(classes))
    }

    // The first layer is a binary tree, that all states of the next may be reached. Letter 0 leads to the same place of the next layer.
    fn layer_target(&self, state: u16, letter: u8) -> u16 {
        let width = self.sixteenth();
        let place = state % width;
        let kernel = self.kernel();
        let next = state.saturating_sub(place).saturating_add(width);
        if next >= kernel {
            let kernel_width = self.drawn().saturating_sub(kernel);
            let at = below(kernel_width, Purpose::Target, self.likeness(state), letter);
            return kernel.saturating_add(at);
        }
        if state < width && letter < 2 {
            return place
                .saturating_mul(2)
                .saturating_add(u16::from(letter))
                .saturating_add(1);
        }
        if letter == 0 {
            return next.saturating_add(place);
        }
        let classes = (width / 16).max(1);
        let class = below(classes, Purpose::Target, self.likeness(state), letter);
        let copy = below(width / classes, Purpose::Copy, state, letter);
        next.saturating_add(class)
            .saturating_add(copy.saturating_mul(classes))
    }

    // States with the same number have arcs that weigh alike.
    fn likeness(&self, state: u16) -> u16 {
        let width = self.sixteenth();
        match self.sort {
            Sort::Line | Sort::Chain | Sort::Cycle | Sort::Random => state,
            Sort::Ladder => 0,
            Sort::Twins => state / 2,
            Sort::Copies => state % width,
            Sort::Layers if state >= self.kernel() => state,
            Sort::Layers => {
                let place = state % width;
                state
                    .saturating_sub(place)
                    .saturating_add(place % (width / 16).max(1))
            },
        }
    }

    // What an arc weighs.
    pub(crate) fn weight<W: Coded>(&self, state: u16, letter: u8) -> W {
        let weight = element::<W>(Purpose::Weight, self.likeness(state), letter);
        let to = self.target(state, letter);
        self.factor::<W>(state)
            .inverse()
            .times(weight.times(self.factor(to)))
    }

    // By what a state weighs words more than the states that it is alike.
    fn factor<W: Coded>(&self, state: u16) -> W {
        if self.sort == Sort::Copies && !self.is_final(state) {
            element(Purpose::Factor, state, 0)
        } else {
            W::one()
        }
    }

    // Whether a state is final.
    pub(crate) fn is_final(&self, state: u16) -> bool {
        match self.sort {
            Sort::Line | Sort::Chain | Sort::Cycle | Sort::Ladder => state == self.last(),
            Sort::Twins => state.saturating_add(1) >= self.last(),
            Sort::Random | Sort::Layers => is_half(state),
            Sort::Copies => is_half(self.likeness(state)),
        }
    }
}
