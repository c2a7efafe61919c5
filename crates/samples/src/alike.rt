// What sources that weigh every word alike answer, where each meaning is stored in one way.
ghost use Rattle.std.specs.Prelude.{◌≡◌, Ok, Some, IfSome};
ghost use Rattle.tables.specs.Table.{WeighAlike, weighing};

use tables::{Source, weigh};
use weights::Injective;

// The weights that two sources give a word, where both give one. If they weigh every word alike, the two are equal as they are stored.
fn weigh_both<W: Injective, S: Source<W>, T: Source<W>>(
    left: &S,
    right: &T,
    word: &[u8],
) -> Option<(W, W)>
    ensures left { IfSome result (λ both. weighing W.kind.group (S.table left.now W.kind) word.now ≡ Ok (Some (W.kind.mean both.0))) }
    ensures right { IfSome result (λ both. weighing W.kind.group (T.table right.now W.kind) word.now ≡ Ok (Some (W.kind.mean both.1))) }
    ensures equal { WeighAlike W.kind.group (S.table left.now W.kind) (T.table right.now W.kind) → IfSome result (λ both. both.0 ≡ both.1) }
{
    let of_left = weigh(left, word).ok()??;
    let of_right = weigh(right, word).ok()??;
    of_left.injective(of_right);
    Some((of_left, of_right))
}
