ghost use Rattle.std.specs.Prelude.{◌≡◌, ℕ, ◌%◌, Decides, refl};
ghost use Rattle.std.proofs.Common.{ap, rules};
ghost use Rattle.weights.specs.Check.{product, square_times, power_255, number_of, residue_of, unit, times, inverse, check_kind, check_of, is_unit, number_unit};
ghost use Rattle.weights.specs.Codes.{check_codes};
ghost use Rattle.std.proofs.lemmas.Bool.{cond-true};
ghost use Rattle.weights.specs.Numbers.{chosen_path};
ghost use Rattle.weights.specs.Residues.{number_stored};

use crate::coded::Coded;
use crate::commuting::Commuting;
use crate::injective::Injective;
use crate::refusal::Refusal;
use crate::weight::Weight;

// A check number from 1 to 256: the byte stands for itself, and 0 for 256.
#[derive(Clone, Copy)]
pub struct Check(pub u8);

impl Check {
    // The number that the byte stands for. As `From` it would be no plainer: the clause would stand apart, in a ghost member.
    pub fn number(self) -> u16
        ensures { result ≡ number_of self.0 }
    {
        if self.0 == 0 { 256 } else { u16::from(self.0) }
    }
}

// The byte that stands for a number. Here and in the product `as` is proved to fit, and a `try_from` could fail.
fn stored(number: u16) -> Check
    ensures { result.0 ≡ number % 256 }
{
    Check((number % 256) as u8)
}

// The product modulo 257.
fn product_mod(a: u16, b: u16) -> u16
    ensures { result ≡ product a b }
{
    (u32::from(a) * u32::from(b) % 257) as u16
}

// The square of r times x, modulo 257.
fn square_times_mod(x: u16, r: u16) -> u16
    ensures { result ≡ square_times x r }
{
    product_mod(product_mod(r, r), x)
}

// The power 255 of x modulo 257.
fn power_255_mod(x: u16) -> u16
    ensures { result ≡ power_255 x }
{
    let p3 = square_times_mod(x, x);
    let p7 = square_times_mod(x, p3);
    let p15 = square_times_mod(x, p7);
    let p31 = square_times_mod(x, p15);
    let p63 = square_times_mod(x, p31);
    let p127 = square_times_mod(x, p63);
    square_times_mod(x, p127)
}

// The product of the numbers that two bytes stand for, as a byte.
fn product_byte(a: Check, b: Check) -> Check
    ensures meaning { residue_of result.0 ≡ times (residue_of a.0) (residue_of b.0) }
    ensures element { result ≡ check_of (times (residue_of a.0) (residue_of b.0)) }
{
    stored(product_mod(a.number(), b.number()))
}

// The inverse of the number that a byte stands for, as a byte.
fn inverse_byte(a: Check) -> Check
    ensures meaning { residue_of result.0 ≡ inverse (residue_of a.0) }
    ensures element { result ≡ check_of (inverse (residue_of a.0)) }
{
    stored(power_255_mod(a.number()))
}

// Whether two bytes stand for one number.
fn same_byte(a: u8, b: u8) -> bool
    ensures { Decides result (residue_of a ≡ residue_of b) }
{
    a == b
}

impl Weight for Check {
    ghost kind = { check_kind };

    fn one() -> Check
        ensures meaning { residue_of result.0 ≡ unit }
        ensures element { result ≡ check_of unit }
    {
        Check(1)
    }

    fn times(self, right: Check) -> Check
        ensures meaning { residue_of result.0 ≡ times (residue_of self.0) (residue_of right.0) }
        ensures element { result ≡ check_of (times (residue_of self.0) (residue_of right.0)) }
    {
        product_byte(self, right)
    }

    fn inverse(self) -> Check
        ensures meaning { residue_of result.0 ≡ inverse (residue_of self.0) }
        ensures element { result ≡ check_of (inverse (residue_of self.0)) }
    {
        inverse_byte(self)
    }

    fn same(self, other: Check) -> bool {
        same_byte(self.0, other.0)
    }
}

impl Injective for Check {
    fn injective(self, _other: Check) {}
}

impl Commuting for Check {
    fn commutes() {}
}

impl Coded for Check {
    ghost codes = { check_codes };

    ghost made = { Prim.search rules };

    ghost whole = { λ x.
        let n : ℕ = number_of x.0 in
        (record { 0 = n % 256 }, cond-true (is_unit n) _ _ (number_unit x.0), chosen_path _ _ (number_stored (n % 256) n refl (number_unit x.0))) };

    ghost alike = { λ x y e. ap (λ z. z.at) e };

    fn kind_number() -> u8 {
        1
    }

    fn from_code(code: u16) -> Result<Check, Refusal> {
        if (1..=256).contains(&code) {
            Ok(stored(code))
        } else {
            Err(Refusal::NoCode)
        }
    }

    fn code(self) -> u16 {
        self.number()
    }
}
