#![tactic(auto)]

mod almost;
mod choose;
mod classes;
mod compiler;
mod copy;
mod gather;
mod group;
mod hyper;
mod kernel;
mod least;
mod memories;
mod push;
mod redirect;
mod rows;
mod view;
mod watch;
mod whole;

pub use compiler::{Report, compile};
pub use memories::{StateMemory, TableMemory, WorkMemory};
pub use view::TableView;
pub use watch::{Step, Unwatched, Watch, compile_watched};
pub use whole::draw_and_compile;
