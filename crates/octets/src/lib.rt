// Bytes without a heap: words in them, low byte first, and a buffer in which a line or a book is put together.
#![tactic(auto)]

mod buffer;
mod words;

pub use buffer::Buffer;
pub use words::word_at;
