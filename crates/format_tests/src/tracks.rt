// Tracks: every length, the count and the offset.
use crate::samples::TRACK;
use lists::Track;
use refusals::Refusal;
use std::test::Fail;

// The count of a track, or why it is refused.
fn opened(track: &[u8]) -> Result<u32, Refusal> {
    Track::open(track).map(|track| track.count())
}

const LONG: &[u8; 40] =
    b"\x03\0\0\0\x08\0\0\0\x02\0\0\0\x5e\0\0\0\x05\0\0\0\0\0\0\0\0\0\0\0\0\0\0\0\0\0\0\0\0\0\0\0";

#[test]
fn truncated_and_extended(rt: HostRuntime) {
    let (track, long) = (TRACK.as_slice(), LONG.as_slice());
    for n in 0..20 {
        assert_eq!(rt; opened(&track[0..n]), Err(Refusal::Track), "{}", n);
    }
    assert_eq!(rt; opened(TRACK), Ok(3));
    for n in 21..41 {
        assert_eq!(rt; opened(&long[0..n]), Err(Refusal::Track), "{}", n);
    }
}

// So many marks of 0: 512 are taken, and 513 are not.
#[test]
fn counts(rt: HostRuntime) {
    let mut track = [0u8; 2060];
    track[4] = 8;
    assert_eq!(rt; opened(&track[0..8]), Ok(0));
    track[1] = 2;
    assert_eq!(rt; opened(&track[0..2056]), Ok(512));
    assert_eq!(rt; opened(&track[0..2052]), Err(Refusal::Track));
    assert_eq!(rt; opened(&track[0..2060]), Err(Refusal::Track));
    track[0] = 1;
    assert_eq!(rt; opened(&track[0..2060]), Err(Refusal::Track));
}

#[test]
fn great_counts(rt: HostRuntime) {
    assert_eq!(rt;
        opened(&[255, 255, 255, 255, 8, 0, 0, 0]),
        Err(Refusal::Track)
    );
    assert_eq!(rt; opened(&[0, 0, 0, 64, 8, 0, 0, 0]), Err(Refusal::Track));
    assert_eq!(rt; opened(&[0, 0, 0, 0, 8, 0, 0, 0]), Ok(0));
}

#[test]
fn offsets(rt: HostRuntime) {
    for (at, byte) in [(4usize, 0u8), (4, 7), (4, 9), (5, 1), (6, 1), (7, 1)] {
        let mut track = *TRACK;
        assert!(rt; at < 20);
        track[at] = byte;
        assert_eq!(rt; opened(&track), Err(Refusal::Track), "{}", byte);
    }
}

#[test]
fn marks(rt: HostRuntime) -> Result<(), Fail> {
    let track = Track::open(TRACK)?;
    assert_eq!(rt; track.mark(0), Some(2));
    assert_eq!(rt; track.mark(2), Some(5));
    assert_eq!(rt; track.mark(3), None);
    assert_eq!(rt; track.mark(18446744073709551615), None);
    let marks = track.marks(rt.alloc())?;
    assert!(rt; marks.as_slice() == [2u32, 94, 5].as_slice());
    Ok(())
}
