ghost use Rattle.std.specs.Prelude.{◌≡◌, nat_lt};
ghost use Rattle.random.specs.Numbers.{mixed_up, next_state, number_between};

// A number for a number, which looks random.
pub fn mixed(number: u64) -> u64
    ensures { result ≡ mixed_up number }
{
    let mixed = (number ^ (number >> 30)).wrapping_mul(0xbf58_476d_1ce4_e5b9);
    let mixed = (mixed ^ (mixed >> 27)).wrapping_mul(0x94d0_49bb_1331_11eb);
    mixed ^ (mixed >> 31)
}

// Numbers that look random and are the same in every run.
#[derive(Clone, Copy)]
pub struct Random {
    state: u64,
}

impl Random {
    // Numbers that go by a seed.
    pub fn new(seed: u64) -> Random
        ensures { result.state ≡ seed }
    {
        Random { state: seed }
    }

    // A number from `low` to below `high`; `low` where there is none.
    pub fn between(&mut self, low: u16, high: u16) -> u16
        ensures number { result ≡ number_between self.old.state low high }
        ensures state { self.new.state ≡ next_state self.old.state }
    {
        self.state = self.state.wrapping_add(0x9e37_79b9_7f4a_7c15);
        let width = high.saturating_sub(low).max(1);
        let above = (mixed(self.state) % u64::from(width)) as u16;
        low.saturating_add(above)
    }

    // A letter, of so many.
    pub fn letter(&mut self, letters: u8) -> u8
        ensures number { result ≡ number_between self.old.state 0 letters }
        ensures state { self.new.state ≡ next_state self.old.state }
    {
        self.between(0, u16::from(letters)) as u8
    }

    // A byte.
    pub fn byte(&mut self) -> u8
        ensures number { result ≡ number_between self.old.state 0 256 }
        ensures state { self.new.state ≡ next_state self.old.state }
    {
        self.between(0, 256) as u8
    }

    // True in so many of a hundred cases.
    pub fn chance(&mut self, percent: u16) -> bool
        ensures number { result ≡ nat_lt (number_between self.old.state 0 100) percent }
        ensures state { self.new.state ≡ next_state self.old.state }
    {
        self.between(0, 100) < percent
    }
}
