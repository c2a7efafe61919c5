#![tactic(auto)]

mod both;
mod fold;
mod letters;
mod ring;

pub use both::Both;
pub use fold::Fold;
pub use ring::Ring;
