ghost use Rattle.std.specs.Prelude.{◌≡◌, ◌%◌};
ghost use Rattle.std.specs.NonZero.{non_zero_u16_get};
ghost use Rattle.std.proofs.Common.{ap, rules};
ghost use Rattle.weights.specs.Codes.{wheel_codes};
ghost use Rattle.weights.specs.Wheel.{wheel_kind, wheel_place};
ghost use Rattle.std.proofs.Math.Nat.{mod-mod};
ghost use Rattle.std.proofs.lemmas.Bool.{cond-true};
ghost use Rattle.weights.specs.Numbers.{chosen_path};

use crate::coded::Coded;
use crate::commuting::Commuting;
use crate::places::{add_places, invert_place, same_place};
use crate::refusal::Refusal;
use crate::weight::Weight;
use std::num::NonZeroU16;

// How many places the wheel has.
const PLACES: u16 = 720;

// The same, as a number that is not 0: a constant cannot call what makes one.
fn place_count() -> NonZeroU16
    ensures { non_zero_u16_get result ≡ 720 }
{
    NonZeroU16::new(PLACES).unwrap()
}

// A place of the wheel: the number modulo 720.
#[derive(Clone, Copy)]
pub struct Wheel(pub u16);

impl Weight for Wheel {
    ghost kind = { wheel_kind };

    fn one() -> Wheel {
        Wheel(0)
    }

    #[tactic(auto, using(crate::proofs::Rounds::place_of_sum))]
    fn times(self, right: Wheel) -> Wheel {
        Wheel(add_places(place_count(), self.0, right.0))
    }

    #[tactic(auto, using(crate::proofs::Rounds::place_of_inverse))]
    fn inverse(self) -> Wheel {
        Wheel(invert_place(place_count(), self.0))
    }

    #[tactic(auto, using(crate::proofs::Rounds::place_alike, crate::proofs::Rounds::place_number))]
    fn same(self, other: Wheel) -> bool {
        same_place(place_count(), self.0, other.0)
    }
}

impl Commuting for Wheel {
    fn commutes() {}
}

impl Coded for Wheel {
    ghost codes = { wheel_codes };

    ghost made = { Prim.search rules };

    ghost whole = { λ x. (record { 0 = x.0 % 720 }, cond-true _ _ _ (wheel_place x.0).ok, chosen_path _ _ (mod-mod x.0 720)) };

    ghost alike = { λ x y e. ap (λ z. z.at) e };

    fn kind_number() -> u8 {
        2
    }

    fn from_code(code: u16) -> Result<Wheel, Refusal> {
        if code < PLACES {
            Ok(Wheel(code))
        } else {
            Err(Refusal::NoCode)
        }
    }

    fn code(self) -> u16 {
        self.0 % PLACES
    }
}
