// The parts of a book: their places and their bytes.
use crate::samples::{BOOK, EIGHT};
use books::{Book, Part};
use std::process::Abort;
use std::test::Fail;

// The parts stand one behind the other, each as long as its kind is, and are all of the book. Answers one more than the number of the last.
fn tiles(rt: &impl Abort, bytes: &[u8]) -> Result<usize, Fail> {
    let book = Book::open(bytes)?;
    let mut place = 0;
    let mut parts = 0;
    for (k, part) in (0..20).filter_map(|k| Some((k, book.part(k)?))) {
        let (at, part, length) = match part {
            Part::Head(at, part) => (at, part, 16),
            Part::Offset(at, part) => (at, part, 4),
            Part::Record(at, part) => (at, part, 8),
        };
        assert_eq!(rt; at, place);
        assert_eq!(rt; part.len(), length);
        assert!(rt; at <= bytes.len() && part.len() <= bytes.len() - at);
        assert_eq!(rt; part, &bytes[at..at + part.len()]);
        place = at + part.len();
        parts = k + 1;
    }
    assert_eq!(rt; place, bytes.len());
    Ok(parts)
}

#[test]
fn stand_one_behind_the_other(rt: HostRuntime) -> Result<(), Fail> {
    assert_eq!(rt; tiles(&rt, BOOK)?, 3);
    assert_eq!(rt; tiles(&rt, EIGHT)?, 17);
    Ok(())
}

// The parts ask only that the layout is right: this modulus is not.
#[test]
fn look_at_the_layout_alone(rt: HostRuntime) -> Result<(), Fail> {
    let mut book = *BOOK;
    book[4] = 1;
    assert_eq!(rt; tiles(&rt, &book)?, 3);
    let book = Book::open(&book)?;
    assert_eq!(rt; book.modulus(), 1);
    assert_eq!(rt; book.fourth(), Some(22));
    assert_eq!(rt; book.count(), 1);
    assert!(rt; book.factor(1).is_none());
    assert!(rt; book.part(3).is_none());
    Ok(())
}
