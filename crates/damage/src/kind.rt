// The kind of weights of a file.
#[derive(Clone, Copy, PartialEq, Eq, Debug)]
pub(crate) enum Kind {
    Plain,
    Check,
    Wheel,
    BeamWheel,
}

impl Kind {
    pub(crate) fn of_number(number: u8) -> Option<Kind> {
        match number {
            0 => Some(Kind::Plain),
            1 => Some(Kind::Check),
            2 => Some(Kind::Wheel),
            3 => Some(Kind::BeamWheel),
            _ => None,
        }
    }

    pub(crate) fn number(self) -> u8 {
        match self {
            Kind::Plain => 0,
            Kind::Check => 1,
            Kind::Wheel => 2,
            Kind::BeamWheel => 3,
        }
    }

    pub(crate) fn has_code(self, code: u16) -> bool {
        match self {
            Kind::Plain => code == 0,
            Kind::Check => (1..=256).contains(&code),
            Kind::Wheel => code < 720,
            Kind::BeamWheel => code < 1440,
        }
    }

    // The code of one.
    pub(crate) fn one(self) -> u16 {
        match self {
            Kind::Check => 1,
            Kind::Plain | Kind::Wheel | Kind::BeamWheel => 0,
        }
    }

    // The code of the product.
    pub(crate) fn product(self, left: u16, right: u16) -> u16 {
        let left = u32::from(left);
        let right = u32::from(right);
        let product = match self {
            Kind::Plain => 0,
            Kind::Check => left.wrapping_mul(right) % 257,
            Kind::Wheel => left.wrapping_add(right) % 720,
            Kind::BeamWheel => left.wrapping_add(right) % 1440,
        };
        u16::try_from(product).unwrap_or(0)
    }
}
