// The worked tables are as the definitions should have them. Each function's contract is what holds of one.
ghost use Rattle.theory.specs.Examples.{ForkMerges, ForkKeeps, SpinKeeps};

fn fork_merges()
    ensures { ForkMerges }
{}

fn fork_keeps()
    ensures { ForkKeeps }
{}

fn spin_keeps()
    ensures { SpinKeeps }
{}
