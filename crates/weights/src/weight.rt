ghost use Rattle.std.specs.Prelude.{◌≡◌, Decides};
ghost use Rattle.weights.specs.Group.{Kind};

// A weight kind: elements that can be stored, each of which means an element of a group.
pub trait Weight: Copy {
    // what the elements mean; its group has the laws
    ghost kind: { Kind Self };

    // the neutral element
    fn one() -> Self
        ensures { kind.mean result ≡ kind.group.one };

    // the product, self on the left
    fn times(self, right: Self) -> Self
        ensures { kind.mean result ≡ kind.group.mul (kind.mean self) (kind.mean right) };

    // the element whose product with self is one
    fn inverse(self) -> Self
        ensures { kind.mean result ≡ kind.group.inv (kind.mean self) };

    // whether both mean the same; a derived `==` would compare what is stored
    fn same(self, other: Self) -> bool
        ensures { Decides result (kind.mean self ≡ kind.mean other) };
}
