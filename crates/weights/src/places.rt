ghost use Rattle.std.specs.Prelude.{◌≡◌, ◌+◌, ◌-◌, ◌%◌, ◌==◌, Decides};
ghost use Rattle.std.specs.NonZero.{non_zero_u16_get};
ghost use Rattle.weights.specs.Wheel.{place_on, wheel_of};

use std::num::NonZeroU16;

// The sum of two places of a wheel of `places` places, below that number. The operands are any numbers, each read modulo it. From 32,769
// places on a sum may leave 16 bits, so where the two come to a whole round or more, the round is taken away before they are added.
#[tactic(auto, using(crate::proofs::Rounds::sum_short, crate::proofs::Rounds::sum_round, crate::proofs::Rounds::place_of_round))]
pub fn add_places(places: NonZeroU16, a: u16, b: u16) -> u16
    ensures number { result ≡ (a + b) % non_zero_u16_get places }
    ensures place { place_on places result ≡ (wheel_of places).mul (place_on places a) (place_on places b) }
{
    let a = a % places;
    let b = b % places;
    let rest = places.get() - b;
    if a < rest { a + b } else { a - rest }
}

// The inverse of a place, below the number of places: what adds up to place 0 with it. The operand is read modulo that number.
#[tactic(auto, using(crate::proofs::Rounds::place_of_first))]
pub fn invert_place(places: NonZeroU16, a: u16) -> u16
    ensures number { result ≡ (non_zero_u16_get places - a % non_zero_u16_get places) % non_zero_u16_get places }
    ensures place { place_on places result ≡ (wheel_of places).inv (place_on places a) }
{
    let a = a % places;
    if a == 0 { 0 } else { places.get() - a }
}

// Whether two numbers, each read modulo the number of places, are one place.
#[tactic(auto, using(crate::proofs::Rounds::place_alike, crate::proofs::Rounds::place_number))]
pub fn same_place(places: NonZeroU16, a: u16, b: u16) -> bool
    ensures number { result ≡ (a % non_zero_u16_get places == b % non_zero_u16_get places) }
    ensures place { Decides result (place_on places a ≡ place_on places b) }
{
    a % places == b % places
}
