ghost use Rattle.weights.specs.Codes.{plain_codes};
ghost use Rattle.std.specs.Prelude.{◌≡◌};
ghost use Rattle.weights.specs.Plain.{plain, plain_kind};
ghost use Rattle.std.proofs.Common.{rules};

use crate::coded::Coded;
use crate::commuting::Commuting;
use crate::injective::Injective;
use crate::refusal::Refusal;
use crate::weight::Weight;

// The only element of the plain kind.
#[derive(Clone, Copy)]
pub struct Plain;

impl Weight for Plain {
    ghost kind = { plain_kind };

    fn one() -> Plain
        ensures { result ≡ plain }
    {
        Plain
    }

    fn times(self, _right: Plain) -> Plain
        ensures { result ≡ plain }
    {
        Plain
    }

    fn inverse(self) -> Plain
        ensures { result ≡ plain }
    {
        Plain
    }

    fn same(self, _other: Plain) -> bool {
        true
    }
}

impl Injective for Plain {
    fn injective(self, _other: Plain) {}
}

impl Commuting for Plain {
    fn commutes() {}
}

impl Coded for Plain {
    ghost codes = { plain_codes };

    ghost made = { Prim.search rules };

    ghost whole = { Prim.search rules };

    ghost alike = { Prim.search rules };

    fn kind_number() -> u8 {
        0
    }

    fn from_code(code: u16) -> Result<Plain, Refusal> {
        if code == 0 {
            Ok(Plain)
        } else {
            Err(Refusal::NoCode)
        }
    }

    fn code(self) -> u16 {
        0
    }
}
