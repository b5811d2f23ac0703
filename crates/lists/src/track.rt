// A track that was found to be laid out as it should be: a count word, an offset word of 8, and the marks as words.
ghost use Rattle.std.specs.Prelude.{◌≡◌, ◌+◌, ◌*◌, ◌≤◌, length};

mod reading;

#[derive(Clone, Copy)]
pub struct Track<'a> {
    bytes: &'a [u8],
    count: u32,
    ghost few: { count ≤ 512 },
    ghost whole: { length bytes.now ≡ 8 + 4 * count },
}
