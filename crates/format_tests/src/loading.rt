// Loading: every length, every field of the head, and the order of the checks.
use crate::samples::{BOOK, EIGHT, SMALL, changed, headed, refused};
use books::load_book;
use refusals::Refusal;
use std::test::Fail;

#[test]
fn loads(rt: HostRuntime) -> Result<(), Fail> {
    let of_97 = load_book(BOOK)?;
    assert_eq!(rt; of_97.rest(), 1);
    assert_eq!(rt; of_97.fourth(), Some(22));
    assert_eq!(rt; of_97.factors().len(), 1);
    let of_17 = load_book(SMALL)?;
    assert_eq!(rt; of_17.rest(), 1);
    assert_eq!(rt; of_17.factors().len(), 0);
    let of_eight = load_book(EIGHT)?;
    assert_eq!(rt; of_eight.factors().len(), 8);
    assert_eq!(rt; of_eight.rest(), 1);
    Ok(())
}

// The head has 16 bytes.
fn short(length: usize) -> Refusal {
    if length < 16 {
        Refusal::Format
    } else {
        Refusal::Layout
    }
}

// A book cut short at every length.
#[test]
fn truncated(rt: HostRuntime) {
    let (book, eight) = (BOOK.as_slice(), EIGHT.as_slice());
    for n in 0..28 {
        assert_eq!(rt; refused(&book[0..n]), Some(short(n)), "{}", n);
    }
    for n in 0..112 {
        assert_eq!(rt; refused(&eight[0..n]), Some(short(n)), "{}", n);
    }
}

const LONG: &[u8; 64] =
    b"\x01\0\0\0\x61\0\0\0\x16\0\0\0\x01\0\0\0\x14\0\0\0\x03\0\x01\0\x23\0\0\0\0\0\0\0\0\0\0\0\0\0\0\0\0\0\0\0\0\0\0\0\0\0\0\0\0\0\0\0\0\0\0\0\0\0\0\0";

// A book with more bytes than its count asks for.
#[test]
fn extended(rt: HostRuntime) {
    let long = LONG.as_slice();
    assert_eq!(rt; refused(&long[0..28]), None);
    for n in 29..65 {
        assert_eq!(rt; refused(&long[0..n]), Some(Refusal::Layout), "{}", n);
    }
}

// (place, byte, refusal): each byte of the first word, of the count and of the offset.
const HEADS: [(usize, u8, Refusal); 15] = [
    (0, 0, Refusal::Format),
    (0, 2, Refusal::Format),
    (1, 1, Refusal::Format),
    (2, 1, Refusal::Format),
    (3, 1, Refusal::Format),
    (12, 0, Refusal::Layout),
    (12, 2, Refusal::Layout),
    (12, 8, Refusal::Layout),
    (12, 9, Refusal::Layout),
    (13, 1, Refusal::Layout),
    (15, 255, Refusal::Layout),
    (16, 19, Refusal::Layout),
    (16, 21, Refusal::Layout),
    (17, 1, Refusal::Layout),
    (19, 255, Refusal::Layout),
];

#[test]
fn heads_and_offsets(rt: HostRuntime) {
    for (at, byte, expected) in HEADS {
        assert_eq!(rt; refused(&changed(at, byte)), Some(expected), "{}", at);
    }
    // two offsets that change places
    let mut swapped = *EIGHT;
    swapped[16] = EIGHT[20];
    swapped[20] = EIGHT[16];
    assert_eq!(rt; refused(&swapped), Some(Refusal::Layout));
}

// Nine records, laid out as eight would be.
const NINE: &[u8; 124] =
    b"\x01\0\0\0\x61\0\0\0\x16\0\0\0\x09\0\0\0\x34\0\0\0\x3c\0\0\0\x44\0\0\0\x4c\0\0\0\x54\0\0\0\x5c\0\0\0\x64\0\0\0\x6c\0\0\0\x74\0\0\0\0\0\0\0\0\0\0\0\0\0\0\0\0\0\0\0\0\0\0\0\0\0\0\0\0\0\0\0\0\0\0\0\0\0\0\0\0\0\0\0\0\0\0\0\0\0\0\0\0\0\0\0\0\0\0\0\0\0\0\0\0\0\0\0\0\0\0\0\0\0\0\0";

// (count, refusal) of a head alone: 9 is too many, and so is the greatest word; 0 is right, and 8 has no room.
const COUNTS: [(u32, Option<Refusal>); 6] = [
    (0, None),
    (8, Some(Refusal::Layout)),
    (9, Some(Refusal::Layout)),
    (512, Some(Refusal::Layout)),
    (513, Some(Refusal::Layout)),
    (4294967295, Some(Refusal::Layout)),
];

#[test]
fn counts(rt: HostRuntime) {
    for (count, expected) in COUNTS {
        assert_eq!(rt; refused(&headed(17, 4, count)), expected, "{}", count);
    }
    assert_eq!(rt; refused(NINE), Some(Refusal::Layout));
}

// (modulus, refusal) with no factor and no fourth root.
const MODULI: [(u32, Option<Refusal>); 12] = [
    (0, Some(Refusal::Modulus)),
    (1, Some(Refusal::Modulus)),
    (2, Some(Refusal::Size)),
    (7, Some(Refusal::Size)),
    (8, Some(Refusal::Size)),
    (9, None),
    (13, Some(Refusal::Size)),
    (97, None),
    (2013265921, None),
    (2147483647, Some(Refusal::Size)),
    (2147483648, Some(Refusal::Modulus)),
    (4294967295, Some(Refusal::Modulus)),
];

#[test]
fn moduli(rt: HostRuntime) {
    for (modulus, expected) in MODULI {
        assert_eq!(rt; refused(&headed(modulus, 0, 0)), expected, "{}", modulus);
    }
}

// (place, byte, refusal): the record and the fourth root.
const RECORDS: [(usize, u8, Option<Refusal>); 14] = [
    (20, 0, Some(Refusal::Base)),
    (20, 1, Some(Refusal::Base)),
    (20, 2, Some(Refusal::Base)),
    (21, 16, Some(Refusal::Base)),
    (20, 5, Some(Refusal::Power)),
    (22, 0, Some(Refusal::Power)),
    (22, 2, Some(Refusal::Power)),
    (23, 255, Some(Refusal::Power)),
    (24, 1, Some(Refusal::Root)),
    (24, 61, None),
    (24, 97, Some(Refusal::Root)),
    (27, 128, Some(Refusal::Root)),
    (8, 23, Some(Refusal::Root)),
    (8, 75, None),
];

const TWICE: &[u8; 40] =
    b"\x01\0\0\0\x49\0\0\0\x1b\0\0\0\x02\0\0\0\x18\0\0\0\x20\0\0\0\x03\0\x01\0\x08\0\0\0\x03\0\x01\0\x08\0\0\0";

#[test]
fn records_and_fourth_roots(rt: HostRuntime) -> Result<(), Fail> {
    for (at, byte, expected) in RECORDS {
        assert_eq!(rt; refused(&changed(at, byte)), expected, "{}", at);
    }
    assert_eq!(rt; load_book(&changed(8, 0))?.fourth(), None);
    // modulo 73 the record 3 with the power 1, twice: 3 goes into what is left, and is shared
    assert_eq!(rt; refused(TWICE), Some(Refusal::Shared));
    Ok(())
}

// Where several checks refuse, the first in their order does.
#[test]
fn orders(rt: HostRuntime) {
    let mut book = *BOOK;
    book[8] = 23;
    assert_eq!(rt; refused(&book), Some(Refusal::Root));
    book[20] = 4;
    assert_eq!(rt; refused(&book), Some(Refusal::Base));
    book[4] = 98;
    assert_eq!(rt; refused(&book), Some(Refusal::Size));
    book[4] = 1;
    assert_eq!(rt; refused(&book), Some(Refusal::Modulus));
    book[16] = 0;
    assert_eq!(rt; refused(&book), Some(Refusal::Layout));
    book[0] = 3;
    assert_eq!(rt; refused(&book), Some(Refusal::Format));
}
