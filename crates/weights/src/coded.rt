ghost use Rattle.std.specs.Prelude.{◌≡◌, ℕ, Some};
ghost use Rattle.weights.specs.Codes.{Codes};
ghost use Rattle.weights.specs.Refusal.{outcome, given, bare};

use crate::refusal::Refusal;
use crate::weight::Weight;

// A weight kind whose elements have codes, by which files name them.
pub trait Coded: Weight {
    ghost codes: { Codes Self };

    // The number of the kind in files. No enum: kinds are open, and each brings its own.
    fn kind_number() -> u8
        ensures { result ≡ codes.number };

    // The element of a code, or refusal 4. `TryFrom` would be no plainer: its promise is each impl's own, and only a law could tie it
    // to the codes.
    fn from_code(code: u16) -> Result<Self, Refusal>
        ensures { outcome result ≡ given (bare 4) (codes.element code) };

    // The code of the element, where `Into` would likewise leave the promise to a law.
    fn code(self) -> u16
        ensures { result ≡ codes.code_of self };

    // an element that a code makes has that code
    ghost made: { (c : ℕ) (x : Self) → codes.element c ≡ Some x → codes.code_of x ≡ c };

    // the code of an element makes one that means the same
    ghost whole: { (x : Self) → (y : Self) × (codes.element (codes.code_of x) ≡ Some y) × (Self.kind.mean y ≡ Self.kind.mean x) };

    // the code goes by the meaning alone
    ghost alike: { (x y : Self) → Self.kind.mean x ≡ Self.kind.mean y → codes.code_of x ≡ codes.code_of y };
}
