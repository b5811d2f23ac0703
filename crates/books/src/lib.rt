// Books: a closed plan over residues as bytes, and back.
#![tactic(auto)]

mod book;
mod load;
mod part;
mod write;

pub use book::Book;
pub use load::load_book;
pub use part::Part;
pub use write::write_book;
