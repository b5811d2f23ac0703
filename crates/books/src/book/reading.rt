// Reading a book: its head, its offsets and its records.
ghost use Rattle.std.specs.Prelude.{◌≡◌, ◌↔◌, ◌+◌, ◌*◌, ◌<◌, ◌≤◌, length, IsSome};
ghost use Rattle.books.specs.Layout.{offsets_right, offset};
ghost use Rattle.books.specs.Parts.{Opens, Parted, record_in, record_read};

use super::Book;
use crate::part::Part;
use octets::word_at;
use refusals::Refusal;
use roots::Factor;

// Each offset is as stated: that of record k is 16 + 4 × count + 8 × k.
fn offsets_stand(bytes: &[u8], count: u32) -> bool
    requires { (count ≤ 8) × (16 + 4 * count ≤ length bytes.now) }
    ensures { result ≡ offsets_right bytes.now count 0 count }
{
    (0..count).all(|k| word_at(bytes, 16 + 4 * k as usize) == Some(16 + 4 * count + 8 * k))
}

// The factor in the first eight bytes, if there are so many.
fn read_record(bytes: &[u8]) -> Option<Factor>
    ensures { result ≡ record_in bytes.now }
{
    let [r0, r1, f0, f1, z0, z1, z2, z3, ..] = bytes else {
        return None;
    };
    Some(Factor {
        r: u64::from(u16::from_le_bytes([*r0, *r1])),
        f: u16::from_le_bytes([*f0, *f1]),
        zeta: u64::from(u32::from_le_bytes([*z0, *z1, *z2, *z3])),
    })
}

impl<'a> Book<'a> {
    // Checks that the bytes are laid out as a book, and nothing else of it.
    pub fn open(bytes: &'a [u8]) -> Result<Book<'a>, Refusal>
        ensures { Opens bytes.now result }
    {
        // The pattern names the bytes of the head, and binds the rest.
        let [
            a0,
            a1,
            a2,
            a3,
            q0,
            q1,
            q2,
            q3,
            i0,
            i1,
            i2,
            i3,
            n0,
            n1,
            n2,
            n3,
            rest @ ..,
        ] = bytes
        else {
            return Err(Refusal::Format);
        };
        if u32::from_le_bytes([*a0, *a1, *a2, *a3]) != 1 {
            return Err(Refusal::Format);
        }
        let count = u32::from_le_bytes([*n0, *n1, *n2, *n3]);
        if count > 8 || rest.len() != 12 * count as usize || !offsets_stand(bytes, count) {
            return Err(Refusal::Layout);
        }
        // in the bytes 0 stands for no fourth root
        let fourth = u32::from_le_bytes([*i0, *i1, *i2, *i3]);
        Ok(Book {
            bytes,
            modulus: u32::from_le_bytes([*q0, *q1, *q2, *q3]),
            fourth: (fourth != 0).then_some(fourth),
            count,
        })
    }

    pub fn modulus(&self) -> u32
        ensures { result ≡ self.now.modulus }
    {
        self.modulus
    }

    // The fourth root, if the book has one.
    pub fn fourth(&self) -> Option<u32>
        ensures { result ≡ self.now.fourth }
    {
        self.fourth
    }

    // How many records there are.
    pub fn count(&self) -> u32
        ensures { result ≡ self.now.count }
    {
        self.count
    }

    // The factor of record k, if the book has so many.
    pub fn factor(&self, k: u32) -> Option<Factor>
        ensures value { result ≡ record_read self.now.bytes.now (offset self.now.count k) }
        ensures there { IsSome result ↔ (k < self.now.count) }
    {
        if k >= self.count {
            return None;
        }
        let at = 16 + 4 * self.count as usize + 8 * k as usize;
        read_record(&self.bytes[at..])
    }

    // Part k: the head, then the offsets, then the records.
    pub fn part(&self, k: usize) -> Option<Part<'a>>
        ensures { Parted self.now.bytes.now self.now.count k result }
    {
        let count = self.count as usize;
        let bytes = self.bytes;
        if k >= 1 + 2 * count {
            return None;
        }
        if k == 0 {
            return Some(Part::Head(0, &bytes[..16]));
        }
        if k <= count {
            let at = 16 + 4 * (k - 1);
            return Some(Part::Offset(at, &bytes[at..at + 4]));
        }
        let at = 16 + 4 * count + 8 * (k - 1 - count);
        Some(Part::Record(at, &bytes[at..at + 8]))
    }
}
