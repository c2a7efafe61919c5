use random::Random;
use weights::{BeamWheel, Check, Coded, Commuting, Pair, Plain, Weight, Wheel};

// A kind of weights to be tried. Its elements are drawn from a small set, so that different words often weigh the same.
pub(crate) trait Element: Commuting {
    fn drawn(random: &mut Random) -> Self;

    // A number to print for the element.
    fn shown(self) -> usize;
}

impl Element for Plain {
    fn drawn(_random: &mut Random) -> Plain {
        Plain
    }

    fn shown(self) -> usize {
        usize::from(self.code())
    }
}

impl Element for Check {
    fn drawn(random: &mut Random) -> Check {
        match random.between(0, 8) {
            0 => Check(2),
            1 => Check(3),
            2 => Check(0),
            3 => Check(129),
            _ => Check(1),
        }
    }

    fn shown(self) -> usize {
        usize::from(self.code())
    }
}

impl Element for Wheel {
    fn drawn(random: &mut Random) -> Wheel {
        match random.between(0, 8) {
            0 => Wheel(1),
            1 => Wheel(360),
            2 => Wheel(719),
            // place 0 once more
            3 => Wheel(720),
            _ => Wheel(0),
        }
    }

    fn shown(self) -> usize {
        usize::from(self.code())
    }
}

impl Element for BeamWheel {
    fn drawn(random: &mut Random) -> BeamWheel {
        match random.between(0, 8) {
            0 => BeamWheel(1),
            1 => BeamWheel(720),
            2 => BeamWheel(1439),
            // place 0 once more
            3 => BeamWheel(1440),
            _ => BeamWheel(0),
        }
    }

    fn shown(self) -> usize {
        usize::from(self.code())
    }
}

impl Element for Pair<Check, Wheel> {
    fn drawn(random: &mut Random) -> Pair<Check, Wheel> {
        Pair {
            left: Check::drawn(random),
            right: Wheel::drawn(random),
        }
    }

    // the check number before the last three digits, which are the place
    fn shown(self) -> usize {
        let left = self.left.shown();
        let right = self.right.shown();
        left.saturating_mul(1000).saturating_add(right)
    }
}
