// Writing: the room asked for, what stays as found, and both ways of the round trip.
use crate::samples::{BOOK, EIGHT, SMALL};
use books::{load_book, write_book};
use fields::Residues;
use refusals::Refusal;
use roots::Draft;
use std::process::Abort;
use std::test::Fail;

// The length written, or the refusal.
fn written(book: &[u8], out: &mut [u8]) -> Result<usize, Refusal> {
    write_book(&load_book(book)?, out)
}

#[test]
fn back_in_the_same_bytes(rt: HostRuntime) {
    let books: [&[u8]; 3] = [BOOK, SMALL, EIGHT];
    for book in books {
        let mut out = [170u8; 120];
        assert_eq!(rt; written(book, &mut out), Ok(book.len()));
        assert!(rt; book.len() <= 120);
        assert!(rt; &out[0..book.len()] == book);
        assert!(rt; out[book.len()..].iter().all(|byte| *byte == 170));
    }
}

// With a byte less than the book has, the call is refused and writes nothing.
fn needs_its_room<const N: usize>(rt: &impl Abort, book: &[u8; N], before: u8) -> Result<(), Fail> {
    let mut out = [before; N];
    let Some((_, short)) = out.split_last_mut() else {
        return Err(Fail::new("a book has bytes"));
    };
    assert_eq!(rt; written(book, short), Err(Refusal::Room));
    assert!(rt; out == [before; N]);
    assert_eq!(rt; written(book, &mut out), Ok(N));
    assert!(rt; out == *book);
    Ok(())
}

#[test]
fn room(rt: HostRuntime) -> Result<(), Fail> {
    needs_its_room(&rt, BOOK, 170)
}

#[test]
fn room_for_eight_factors(rt: HostRuntime) -> Result<(), Fail> {
    needs_its_room(&rt, EIGHT, 0)
}

// A size that is not served is refused first, whatever the room.
#[test]
fn sizes(rt: HostRuntime) -> Result<(), Fail> {
    let field = Residues::new(7)?;
    let plan = Draft::start(field).close();
    let mut out = [1u8; 4];
    assert_eq!(rt; write_book(&plan, &mut out), Err(Refusal::Size));
    assert!(rt; out == [1u8; 4]);
    Ok(())
}

// A plan that was sought, not loaded, and without a fourth root.
#[test]
fn sought(rt: HostRuntime) -> Result<(), Fail> {
    let field = Residues::new(73)?;
    let mut draft = Draft::start(field);
    assert!(rt; draft.seek(3, 1).is_ok());
    let drafted = draft.close();
    let mut out = [0u8; 28];
    assert_eq!(rt; write_book(&drafted, &mut out), Ok(28));
    let loaded = load_book(&out)?;
    assert_eq!(rt; loaded.rest(), drafted.rest());
    assert_eq!(rt; loaded.fourth(), None);
    assert_eq!(rt; loaded.factors().len(), 1);
    Ok(())
}
