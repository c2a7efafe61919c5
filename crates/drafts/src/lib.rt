#![tactic(auto)]

mod fault;
mod field;
mod kind;
mod read;
mod tag;
mod write;

pub use fault::{Fault, Layer};
pub use kind::FileKind;
pub use read::read_draft;
pub use write::{code_of, write_draft};
