ghost use Rattle.weights.specs.Group.{Commutes};

use crate::weight::Weight;

// A weight kind whose products do not depend on their order.
pub trait Commuting: Weight {
    // Nothing is computed: the promise is the law.
    fn commutes()
        ensures { Commutes Self.kind.group };
}
