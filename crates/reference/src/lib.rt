#![tactic(auto)]

// Least and hyper tables once more, slowly, from what they are defined to be: a second implementation that shares no step with the
// compiler, to be compared with it. What it answers is promised to be closed, with counts in range, and no more.
mod almost;
mod equivalent;
mod hyper;
mod kernel;
mod least;
mod push;
mod redirect;
mod table;
#[cfg(test)]
mod tests;

pub use hyper::{Compiled, compile_by_definition};
pub use table::{Arc, State, Table};
