#![tactic(auto)]

mod beam_wheel;
mod check;
mod coded;
mod commuting;
mod injective;
mod pair;
mod places;
mod plain;
mod refusal;
#[cfg(test)]
mod tests;
mod weight;
mod wheel;

pub use beam_wheel::BeamWheel;
pub use check::Check;
pub use coded::Coded;
pub use commuting::Commuting;
pub use injective::Injective;
pub use pair::Pair;
pub use places::{add_places, invert_place, same_place};
pub use plain::Plain;
pub use refusal::Refusal;
pub use weight::Weight;
pub use wheel::Wheel;
