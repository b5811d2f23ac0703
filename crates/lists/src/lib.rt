// Lists: a book and a track as bytes, and the line of each mark.
#![tactic(auto)]

mod call;
mod input;
mod text;
mod track;
mod whole;

pub use call::{head_line, mark_line};
pub use input::cut;
pub use track::Track;
pub use whole::list;
