#![tactic(auto)]

// Numbers that look random, for the programs that try and measure.
mod numbers;

pub use numbers::{Random, mixed};
