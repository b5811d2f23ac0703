// A book that was found to be laid out as it should be: the head's words, and the bytes themselves.
ghost use Rattle.std.specs.Prelude.{◌≡◌, ◌+◌, ◌*◌, ◌≤◌, length};

mod reading;

#[derive(Clone, Copy)]
pub struct Book<'a> {
    bytes: &'a [u8],
    modulus: u32,
    fourth: Option<u32>,
    // how many records there are
    count: u32,
    ghost few: { count ≤ 8 },
    ghost whole: { length bytes.now ≡ 16 + 12 * count },
}
