// A worked draft, proved over the definitions alone.
ghost use Rattle.samples.specs.Draft.{DraftWeighs};

// Nothing is computed: the promise is what the draft weighs.
fn draft_weighs()
    ensures { DraftWeighs }
{}
