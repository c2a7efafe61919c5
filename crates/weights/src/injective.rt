ghost use Rattle.std.specs.Prelude.{◌≡◌};

use crate::weight::Weight;

// A weight kind in which elements of one meaning are one element, so that what is told of a meaning is told of the element.
pub trait Injective: Weight {
    // Nothing is computed: the promise is that elements which mean the same are equal.
    fn injective(self, other: Self)
        ensures { Self.kind.mean self ≡ Self.kind.mean other → self ≡ other };
}
