// A part of a book's own bytes, with the place of its first byte in the book.
#[derive(Clone, Copy)]
pub enum Part<'a> {
    // format, modulus, fourth root and count: four words
    Head(usize, &'a [u8]),
    // where a record begins: a word
    Offset(usize, &'a [u8]),
    // r and f in two bytes each, ζ in four
    Record(usize, &'a [u8]),
}
