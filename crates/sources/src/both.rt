ghost use Rattle.std.specs.Prelude.{◌≡◌, ◌+◌, ◌*◌, ◌/◌, ◌%◌, ◌<◌, ◌≤◌, IfSome, IfOk, nat_lt};
ghost use Rattle.weights.specs.Codes.{within};
ghost use Rattle.weights.specs.Refusal.{outcome, judged};
ghost use Rattle.sources.specs.Both.{both_verdict, both_table, both_lawful, WeighsAsProduct};

use tables::Source;
use weights::{Commuting, Refusal, Weight};

// Two sources side by side. Whether they can be joined is checked where a question is asked.
#[derive(Drop)]
pub struct Both<L, R> {
    left: L,
    right: R,
}

// A number for each of two sources: how many states it has, or one of them.
#[derive(Clone, Copy)]
struct Sides {
    left: u16,
    right: u16,
}

impl<L: Drop, R: Drop> Both<L, R> {
    // The two sources side by side, whose kind must commute. Refused: unequal letters by 9, then more than 4,096 pairs of states by 8.
    pub fn new<W: Commuting>(left: L, right: R) -> Result<Both<L, R>, Refusal>
    where
        L: Source<W>,
        R: Source<W>,
        ensures answer { outcome result ≡ judged (both_verdict (L.table left W.kind) (R.table right W.kind)) (record { left = left; right = right }) }
        ensures weighs { IfOk result (λ b. WeighsAsProduct W.kind.group (L.table left W.kind) (R.table right W.kind) (both_table W.kind.group (L.table b.left W.kind) (R.table b.right W.kind))) }
    {
        W::commutes();
        let both = Both { left, right };
        both.sizes()?;
        Ok(both)
    }
}

impl<L, R> Both<L, R> {
    // The states of the two sources, or why these cannot be joined.
    fn sizes<W: Weight>(&self) -> Result<Sides, Refusal>
    where
        L: Source<W>,
        R: Source<W>,
        ensures { outcome result ≡ judged (both_verdict (L.table self.now.left W.kind) (R.table self.now.right W.kind)) (record { left = (L.table self.now.left W.kind).states; right = (R.table self.now.right W.kind).states }) }
    {
        if self.left.letters() != self.right.letters() {
            return Err(Refusal::UnequalLetters);
        }
        let sizes = Sides {
            left: self.left.states(),
            right: self.right.states(),
        };
        if u32::from(sizes.left) * u32::from(sizes.right) > 4096 {
            return Err(Refusal::StateCount);
        }
        Ok(sizes)
    }
}

// The number of a pair of states, where the two sources have so many.
fn join(states: Sides, sizes: Sides) -> u16
    requires in_left { states.left < sizes.left }
    requires in_right { states.right < sizes.right }
    requires few { sizes.left * sizes.right ≤ 4096 }
    ensures { result ≡ states.left * sizes.right + states.right }
{
    states.left * sizes.right + states.right
}

// The pair of states that has a number, if there is one.
fn split(state: u16, sizes: Sides) -> Option<Sides>
    requires { sizes.left * sizes.right ≤ 4096 }
    ensures value { result ≡ within (nat_lt state (sizes.left * sizes.right)) (record { left = state / sizes.right; right = state % sizes.right }) }
    ensures inside { IfSome result (λ p. (p.left < sizes.left) × (p.right < sizes.right)) }
{
    if state >= sizes.left * sizes.right {
        return None;
    }
    Some(Sides {
        left: state / sizes.right,
        right: state % sizes.right,
    })
}

impl<W: Weight, L: Source<W>, R: Source<W>> Source<W> for Both<L, R> {
    ghost table = { λ b K. both_table K.group (L.table b.left K) (R.table b.right K) };

    ghost lawful = { λ b K. both_lawful K.group (L.table b.left K) (R.table b.right K) (L.lawful b.left K) (R.lawful b.right K) };

    fn states(&self) -> u16 {
        match self.sizes() {
            Ok(sizes) => sizes.left * sizes.right,
            Err(_) => self.left.states(),
        }
    }

    fn letters(&self) -> u8 {
        self.left.letters()
    }

    fn start(&self) -> u16 {
        let Ok(sizes) = self.sizes() else {
            return self.left.start();
        };
        let start = Sides {
            left: self.left.start(),
            right: self.right.start(),
        };
        join(start, sizes)
    }

    fn start_weight(&self) -> W {
        if self.sizes().is_err() {
            return self.left.start_weight();
        }
        self.left.start_weight().times(self.right.start_weight())
    }

    fn is_final(&self, state: u16) -> Option<bool> {
        let Ok(sizes) = self.sizes() else {
            return self.left.is_final(state);
        };
        let states = split(state, sizes)?;
        let left = self.left.is_final(states.left)?;
        let right = self.right.is_final(states.right)?;
        Some(left && right)
    }

    fn target(&self, state: u16, letter: u8) -> Option<u16> {
        let Ok(sizes) = self.sizes() else {
            return self.left.target(state, letter);
        };
        let states = split(state, sizes)?;
        let targets = Sides {
            left: self.left.target(states.left, letter)?,
            right: self.right.target(states.right, letter)?,
        };
        Some(join(targets, sizes))
    }

    fn weight(&self, state: u16, letter: u8) -> Option<W> {
        let Ok(sizes) = self.sizes() else {
            return self.left.weight(state, letter);
        };
        let states = split(state, sizes)?;
        let left = self.left.weight(states.left, letter)?;
        let right = self.right.weight(states.right, letter)?;
        Some(left.times(right))
    }
}
