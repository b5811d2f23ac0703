// Books and tracks to begin from, and what is asked of them.
use books::load_book;
use refusals::Refusal;

// Modulo 97, with the fourth root 22 and the factor 3 with ζ = 35.
pub(crate) const BOOK: &[u8; 28] =
    b"\x01\0\0\0\x61\0\0\0\x16\0\0\0\x01\0\0\0\x14\0\0\0\x03\0\x01\0\x23\0\0\0";

// Modulo 17, with the fourth root 4 and no factor.
pub(crate) const SMALL: &[u8; 16] = b"\x01\0\0\0\x11\0\0\0\x04\0\0\0\0\0\0\0";

// Modulo 892,371,481, with a fourth root and eight factors: 3, 5, 7, 11, 13, 17, 19 and 23.
pub(crate) const EIGHT: &[u8; 112] =
    b"\x01\0\0\0\x19\x82\x30\x35\x9e\xbd\x0f\x01\x08\0\0\0\x30\0\0\0\x38\0\0\0\x40\0\0\0\x48\0\0\0\x50\0\0\0\x58\0\0\0\x60\0\0\0\x68\0\0\0\x03\0\x01\0\xbe\x65\x9b\x12\x05\0\x01\0\x27\x57\x28\x30\x07\0\x01\0\x44\x82\x08\x2f\x0b\0\x01\0\x75\xc6\x03\x1f\x0d\0\x01\0\xea\x1a\x16\x19\x11\0\x01\0\x43\xf6\x85\x15\x13\0\x01\0\x3f\xe8\xea\x2a\x17\0\x01\0\x38\x25\xf5\x2f";

// The marks 2, 94 and 5.
pub(crate) const TRACK: &[u8; 20] = b"\x03\0\0\0\x08\0\0\0\x02\0\0\0\x5e\0\0\0\x05\0\0\0";

// Why a book is refused, if it is.
pub(crate) fn refused(book: &[u8]) -> Option<Refusal> {
    load_book(book).err()
}

// One byte of a book changed.
pub(crate) fn changed(at: usize, byte: u8) -> [u8; 28] {
    let mut book = *BOOK;
    if at < 28 {
        book[at] = byte;
    }
    book
}

// A book of no factor with the given modulus, fourth root and count.
pub(crate) fn headed(modulus: u32, fourth: u8, count: u32) -> [u8; 16] {
    let [q0, q1, q2, q3] = modulus.to_le_bytes();
    let [n0, n1, n2, n3] = count.to_le_bytes();
    [1, 0, 0, 0, q0, q1, q2, q3, fourth, 0, 0, 0, n0, n1, n2, n3]
}

// A track of one mark.
pub(crate) fn marked(mark: u32) -> [u8; 12] {
    let [m0, m1, m2, m3] = mark.to_le_bytes();
    [1, 0, 0, 0, 8, 0, 0, 0, m0, m1, m2, m3]
}
