#![tactic(auto)]

mod book;
mod call;
mod list;
mod made;
mod memory;
mod sheet;
mod size;
mod source;
mod words;

pub use book::{Book, make};
pub use call::Call;
pub use list::{draw, make_all};
pub use made::Made;
pub use memory::{element_in, get_or};
pub use sheet::Sheet;
pub use size::{DrawnSize, drawn_size};
pub use source::Source;
pub use words::{first_no_letter, is_letter_count, letters_read, weigh};
