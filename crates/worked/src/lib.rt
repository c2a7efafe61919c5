#![tactic(auto)]

// Worked drafts, from the calls that draw a book, or from another source, to the hyper table.
mod drafts_proved;

pub use drafts_proved::worked_drafts;
