// The theorems on words and on least and hyper tables, each the contract of a function of its own, over every property of words and
// over every weight kind.
ghost use Rattle.std.specs.Prelude.{ℕ, List};
ghost use Rattle.theory.specs.Theorems.{LengthsTell, LeastIsMinimal, LeastIsDetermined, HyperAgrees, HyperIsSmallest, HyperIsDetermined};

use weights::Weight;

// A property of words.
trait Property {
    ghost holds: { List ℕ → Type 0 };
}

fn lengths_tell<P: Property>()
    ensures { LengthsTell P.holds }
{}

fn least_is_minimal<W: Weight>()
    ensures { LeastIsMinimal W.kind.group }
{}

fn least_is_determined<W: Weight>()
    ensures { LeastIsDetermined W.kind.group }
{}

fn hyper_agrees<W: Weight>()
    ensures { HyperAgrees W.kind.group }
{}

fn hyper_is_smallest<W: Weight>()
    ensures { HyperIsSmallest W.kind.group }
{}

fn hyper_is_determined<W: Weight>()
    ensures { HyperIsDetermined W.kind.group }
{}
