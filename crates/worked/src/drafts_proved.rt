// Worked drafts, proved over the definitions alone.
ghost use Rattle.worked.specs.Drafts.{WorkedDrafts};

// Computes nothing: its contract is the drafts.
pub fn worked_drafts()
    ensures { WorkedDrafts }
{}
