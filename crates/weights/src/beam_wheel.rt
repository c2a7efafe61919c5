ghost use Rattle.std.specs.Prelude.{◌≡◌, ◌%◌};
ghost use Rattle.std.specs.NonZero.{non_zero_u16_get};
ghost use Rattle.std.proofs.Common.{ap, rules};
ghost use Rattle.weights.specs.Codes.{beam_wheel_codes};
ghost use Rattle.weights.specs.Wheel.{beam_wheel_kind, beam_wheel_place};
ghost use Rattle.std.proofs.Math.Nat.{mod-mod};
ghost use Rattle.std.proofs.lemmas.Bool.{cond-true};
ghost use Rattle.weights.specs.Numbers.{chosen_path};

use crate::coded::Coded;
use crate::commuting::Commuting;
use crate::places::{add_places, invert_place, same_place};
use crate::refusal::Refusal;
use crate::weight::Weight;
use std::num::NonZeroU16;

// How many places the beam wheel has: two turns of 720.
const PLACES: u16 = 1_440;

// The same, as a number that is not 0: a constant cannot call what makes one.
fn place_count() -> NonZeroU16
    ensures { non_zero_u16_get result ≡ 1440 }
{
    NonZeroU16::new(PLACES).unwrap()
}

// A place of the beam wheel: the number modulo 1,440.
#[derive(Clone, Copy)]
pub struct BeamWheel(pub u16);

impl Weight for BeamWheel {
    ghost kind = { beam_wheel_kind };

    fn one() -> BeamWheel {
        BeamWheel(0)
    }

    #[tactic(auto, using(crate::proofs::Rounds::place_of_sum))]
    fn times(self, right: BeamWheel) -> BeamWheel {
        BeamWheel(add_places(place_count(), self.0, right.0))
    }

    #[tactic(auto, using(crate::proofs::Rounds::place_of_inverse))]
    fn inverse(self) -> BeamWheel {
        BeamWheel(invert_place(place_count(), self.0))
    }

    #[tactic(auto, using(crate::proofs::Rounds::place_alike, crate::proofs::Rounds::place_number))]
    fn same(self, other: BeamWheel) -> bool {
        same_place(place_count(), self.0, other.0)
    }
}

impl Commuting for BeamWheel {
    fn commutes() {}
}

impl Coded for BeamWheel {
    ghost codes = { beam_wheel_codes };

    ghost made = { Prim.search rules };

    ghost whole = { λ x. (record { 0 = x.0 % 1440 }, cond-true _ _ _ (beam_wheel_place x.0).ok, chosen_path _ _ (mod-mod x.0 1440)) };

    ghost alike = { λ x y e. ap (λ z. z.at) e };

    fn kind_number() -> u8 {
        3
    }

    fn from_code(code: u16) -> Result<BeamWheel, Refusal> {
        if code < PLACES {
            Ok(BeamWheel(code))
        } else {
            Err(Refusal::NoCode)
        }
    }

    fn code(self) -> u16 {
        self.0 % PLACES
    }
}
