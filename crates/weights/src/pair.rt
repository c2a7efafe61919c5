ghost use Rattle.weights.specs.Pair.{pair_kind};

use crate::commuting::Commuting;
use crate::injective::Injective;
use crate::weight::Weight;

// An element of each of two kinds.
#[derive(Clone, Copy)]
pub struct Pair<L, R> {
    pub left: L,
    pub right: R,
}

impl<L: Weight, R: Weight> Weight for Pair<L, R> {
    ghost kind = { pair_kind L.kind R.kind };

    fn one() -> Pair<L, R> {
        Pair {
            left: L::one(),
            right: R::one(),
        }
    }

    fn times(self, right: Pair<L, R>) -> Pair<L, R> {
        Pair {
            left: self.left.times(right.left),
            right: self.right.times(right.right),
        }
    }

    fn inverse(self) -> Pair<L, R> {
        Pair {
            left: self.left.inverse(),
            right: self.right.inverse(),
        }
    }

    fn same(self, other: Pair<L, R>) -> bool {
        self.left.same(other.left) && self.right.same(other.right)
    }
}

impl<L: Injective, R: Injective> Injective for Pair<L, R> {
    fn injective(self, other: Pair<L, R>) {
        self.left.injective(other.left);
        self.right.injective(other.right);
    }
}

impl<L: Commuting, R: Commuting> Commuting for Pair<L, R> {
    fn commutes() {
        L::commutes();
        R::commutes();
    }
}
