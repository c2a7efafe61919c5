#![tactic(auto)]

// The listing of a hyper table as text, and the public call that reads a draft file and writes its listing.
mod file;
mod text;
mod write;

pub use file::hyper_listing;
