// The head call and the line call: room, order of the checks, texts, and what stays as found.
use crate::samples::{BOOK, TRACK, changed, marked};
use lists::{cut, head_line, list, mark_line};
use refusals::Refusal;
use std::process::Abort;
use std::test::Fail;

// The call must write this text and nothing behind it.
fn writes<F: FnOnce(&mut [u8]) -> Result<usize, Refusal>>(
    rt: &impl Abort,
    text: &[u8],
    call: F,
) -> Result<(), Fail>
    requires { F.IsAlwaysCallable call }
{
    let mut line = [7u8; 100];
    let length = call(&mut line)?;
    assert_eq!(rt; length, text.len());
    assert!(rt; length <= 96);
    assert_eq!(rt; &line[0..length], text);
    assert!(rt; line[length..].iter().all(|byte| *byte == 7));
    Ok(())
}

fn head_is(rt: &impl Abort, book: &[u8], track: &[u8], text: &[u8]) -> Result<(), Fail> {
    writes(rt, text, |line| head_line(book, track, line))
}

fn line_is(
    rt: &impl Abort,
    book: &[u8],
    track: &[u8],
    number: u64,
    text: &[u8],
) -> Result<(), Fail> {
    writes(rt, text, |line| mark_line(book, track, number, line))
}

// The line call must be refused, and write nothing.
fn line_refused(
    rt: &impl Abort,
    book: &[u8],
    track: &[u8],
    number: u64,
    room: usize,
    expected: Refusal,
) {
    let mut line = [7u8; 100];
    assert!(rt; room <= 100);
    assert_eq!(rt;
        mark_line(book, track, number, &mut line[0..room]),
        Err(expected)
    );
    assert!(rt; line == [7u8; 100]);
}

#[test]
fn the_example(rt: HostRuntime) -> Result<(), Fail> {
    head_is(&rt, BOOK, TRACK, b"modulus 97 rest 1 factors 1\n")?;
    line_is(
        &rt,
        BOOK,
        TRACK,
        0,
        b"0 2 place 14 other 83 joinings 13 tests 0\n",
    )?;
    line_is(
        &rt,
        BOOK,
        TRACK,
        1,
        b"1 94 place 26 other 71 joinings 16 tests 1\n",
    )?;
    line_is(&rt, BOOK, TRACK, 2, b"2 5 refused 13\n")?;
    line_refused(&rt, BOOK, TRACK, 3, 100, Refusal::Line);
    line_refused(&rt, BOOK, TRACK, 18446744073709551615, 100, Refusal::Line);
    Ok(())
}

#[test]
fn heads_that_tell_of_a_refusal(rt: HostRuntime) -> Result<(), Fail> {
    let (book, track) = (BOOK.as_slice(), TRACK.as_slice());
    head_is(&rt, &[], &[], b"book refused 16\n")?;
    head_is(&rt, &book[0..27], TRACK, b"book refused 17\n")?;
    head_is(&rt, &changed(4, 1), &[], b"book refused 1\n")?;
    head_is(&rt, &changed(4, 98), TRACK, b"book refused 2\n")?;
    head_is(&rt, &changed(20, 4), TRACK, b"book refused 4\n")?;
    head_is(&rt, &changed(22, 0), TRACK, b"book refused 5\n")?;
    head_is(&rt, &changed(24, 1), TRACK, b"book refused 7\n")?;
    head_is(&rt, BOOK, &[], b"track refused 18\n")?;
    head_is(&rt, BOOK, &track[0..19], b"track refused 18\n")
}

// 15 comes before the book, the book before the track, and the track before 19.
#[test]
fn orders(rt: HostRuntime) {
    line_refused(&rt, &[], &[], 9, 95, Refusal::Room);
    line_refused(&rt, &[], &[], 9, 0, Refusal::Room);
    line_refused(&rt, &[], &[], 9, 96, Refusal::Format);
    line_refused(&rt, &changed(4, 98), &[], 9, 96, Refusal::Size);
    line_refused(&rt, BOOK, &[], 9, 96, Refusal::Track);
    line_refused(&rt, BOOK, TRACK, 3, 96, Refusal::Line);
    let mut line = [7u8; 95];
    assert_eq!(rt; head_line(BOOK, TRACK, &mut line), Err(Refusal::Room));
    assert!(rt; line == [7u8; 95]);
}

// (mark, the text of its line as mark 0 modulo 97): marks at the modulus, at 2^31 and at the greatest word; 0.
const MARKS: [(u32, &[u8]); 7] = [
    (0, b"0 0 refused 12\n"),
    (1, b"0 1 place 1 other 96 joinings 6 tests 0\n"),
    (96, b"0 96 place 22 other 75 joinings 11 tests 0\n"),
    (97, b"0 97 refused 11\n"),
    (2147483647, b"0 2147483647 refused 11\n"),
    (2147483648, b"0 2147483648 refused 11\n"),
    (4294967295, b"0 4294967295 refused 11\n"),
];

#[test]
fn marks(rt: HostRuntime) -> Result<(), Fail> {
    for (mark, text) in MARKS {
        line_is(&rt, BOOK, &marked(mark), 0, text)?;
    }
    Ok(())
}

// A book without a fourth root loads, and every mark is refused 9; modulo 65, which is no prime, 14 names the step.
#[test]
fn other_refusals_in_lines(rt: HostRuntime) -> Result<(), Fail> {
    line_is(&rt, &changed(8, 0), TRACK, 0, b"0 2 refused 9\n")?;
    let of_65 = [1, 0, 0, 0, 65, 0, 0, 0, 8, 0, 0, 0, 0, 0, 0, 0];
    let track = [2, 0, 0, 0, 8, 0, 0, 0, 4, 0, 0, 0, 14, 0, 0, 0];
    head_is(&rt, &of_65, &track, b"modulus 65 rest 1 factors 0\n")?;
    line_is(&rt, &of_65, &track, 0, b"0 4 refused 13\n")?;
    line_is(&rt, &of_65, &track, 1, b"1 14 refused 14 step 3\n")
}

// The book of 97 and the track of three marks; the book of 17 and the same track.
const BOTH: &[u8; 48] =
    b"\x01\0\0\0\x61\0\0\0\x16\0\0\0\x01\0\0\0\x14\0\0\0\x03\0\x01\0\x23\0\0\0\x03\0\0\0\x08\0\0\0\x02\0\0\0\x5e\0\0\0\x05\0\0\0";

const WITH_17: &[u8; 36] =
    b"\x01\0\0\0\x11\0\0\0\x04\0\0\0\0\0\0\0\x03\0\0\0\x08\0\0\0\x02\0\0\0\x5e\0\0\0\x05\0\0\0";

// How many bytes are the book, and how many the track.
fn cut_to(input: &[u8]) -> (usize, usize) {
    let (book, track) = cut(input);
    (book.len(), track.len())
}

#[test]
fn cuts(rt: HostRuntime) {
    let both = BOTH.as_slice();
    assert_eq!(rt; cut_to(BOTH), (28, 20));
    assert_eq!(rt; cut_to(WITH_17), (16, 20));
    for n in 0..29 {
        assert_eq!(rt; cut_to(&both[0..n]), (n, 0), "{}", n);
    }
    let mut nine = *BOTH;
    nine[12] = 9;
    assert_eq!(rt; cut_to(&nine), (48, 0));
    nine[15] = 255;
    assert_eq!(rt; cut_to(&nine), (48, 0));
}

#[test]
fn lists(rt: HostRuntime) -> Result<(), Fail> {
    let input = WITH_17.as_slice();
    let text = list(rt.alloc(), WITH_17)?;
    assert!(rt;
        text.as_slice()
            == b"modulus 17 rest 1 factors 0\n0 2 place 6 other 11 joinings 7 tests 0\n1 94 refused 11\n2 5 refused 13\n".as_slice()
    );
    assert!(rt; list(rt.alloc(), &input[0..16])?.as_slice() == b"track refused 18\n".as_slice());
    assert!(rt; list(rt.alloc(), &input[0..35])?.as_slice() == b"track refused 18\n".as_slice());
    assert!(rt; list(rt.alloc(), &[])?.as_slice() == b"book refused 16\n".as_slice());
    Ok(())
}
