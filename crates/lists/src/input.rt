// A book followed at once by a track.
ghost use Rattle.std.specs.Prelude.{◌≡◌, ◌≤◌, length, take, drop};
ghost use Rattle.lists.specs.Cut.{cut_at};

use octets::word_at;

// How many bytes of the input are the book.
fn book_length(input: &[u8]) -> usize
    ensures value { result ≡ cut_at input.now }
    ensures within { result ≤ length input.now }
{
    let Some(count) = word_at(input, 12) else {
        return input.len();
    };
    if count > 8 || input.len() < 16 + 12 * count as usize {
        return input.len();
    }
    16 + 12 * count as usize
}

// The book is the first 16 + 12 × count bytes, and the rest is the track. All of the input is the book where it is shorter, or the count is above 8.
pub fn cut(input: &[u8]) -> (&[u8], &[u8])
    ensures book { result.0.now ≡ take (cut_at input.now) input.now }
    ensures track { result.1.now ≡ drop (cut_at input.now) input.now }
{
    input.split_at(book_length(input))
}
