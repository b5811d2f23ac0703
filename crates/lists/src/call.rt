// The two calls that everything else uses, on byte slices and without a heap: the head line of a list, and the line of one mark.
// A book and a track stay two slices throughout, as the C interface hands them over.
ghost use Rattle.std.specs.Prelude.{◌≡◌, ◌<◌, ◌≤◌, length, Err, IfOk};
ghost use Rattle.refusals.specs.declared.Refusal.TheVariants.{Room};
ghost use Rattle.books.specs.Loading.{loaded};
ghost use Rattle.books.specs.Output.{Written, left_by, length_by};
ghost use Rattle.lists.specs.Calls.{LaidOver, head_called, line_of_head, lined, mark_called};
ghost use Rattle.lists.specs.Example.{Example};
ghost use Rattle.lists.specs.Laws.{HeadLines, LinesExact, MarkLines};
ghost use Rattle.lists.specs.Tracks.{tracked};

use crate::text::{head_text, mark_text, refused_text};
use crate::track::Track;
use books::load_book;
use octets::Buffer;
use refusals::Refusal;

// A line never has more bytes.
const LINE: usize = 96;

// What the book holds, or that the book or the track was refused.
fn head_of(book: &[u8], track: &[u8]) -> Buffer
    ensures { result ≡ line_of_head book.now track.now }
{
    match load_book(book) {
        Err(why) => refused_text(b"book refused ", why),
        Ok(plan) => match Track::open(track) {
            Err(why) => refused_text(b"track refused ", why),
            Ok(_) => head_text(&plan),
        },
    }
}

// The line of one mark, or why there is none.
fn line_of(book: &[u8], track: &[u8], number: u64) -> Result<Buffer, Refusal>
    ensures { result ≡ lined (loaded book.now) (tracked track.now) track.now number }
{
    let plan = load_book(book)?;
    let marks = Track::open(track)?;
    let mark = u64::from(marks.mark(number).ok_or(Refusal::Line)?);
    Ok(mark_text(number, mark, plan.root(mark)))
}

// Lays the text that is made over the front of the output, if that has room for any line, and answers its length.
fn written<F: FnOnce() -> Result<Buffer, Refusal>>(
    line: &mut [u8],
    make: F,
) -> Result<usize, Refusal>
    requires { F.IsAlwaysCallable make }
    ensures room { length line.old < 96 → (result ≡ Err Room) × (line.new ≡ line.old) }
    ensures made { 96 ≤ length line.old → (text : Written) × F.post make text × LaidOver text line.old result line.new }
{
    if line.len() < LINE {
        return Err(Refusal::Room);
    }
    Ok(make()?.lay_over(line))
}

// Writes the head line over the front of the output, and answers its length. Only want of room is refused: of a book or a track that
// is refused the line says so. What lies behind the line stays as found.
pub fn head_line(book: &[u8], track: &[u8], line: &mut [u8]) -> Result<usize, Refusal>
    ensures value { result ≡ length_by (head_called book.now track.now (length line.old)) }
    ensures after { line.new ≡ left_by (head_called book.now track.now (length line.old)) line.old }
    ensures fits { IfOk result (λ n. n ≤ 96) }
    ensures laws { HeadLines }
    ensures worked { Example }
{
    written(line, || Ok(head_of(book, track)))
}

// Writes the line of the mark with the given number, from 0, over the front of the output, and answers its length. A refused call writes
// nothing; a mark that is refused is no refused call, since its line says so. What lies behind the line stays as found.
pub fn mark_line(book: &[u8], track: &[u8], number: u64, line: &mut [u8]) -> Result<usize, Refusal>
    ensures value { result ≡ length_by (mark_called book.now track.now number (length line.old)) }
    ensures after { line.new ≡ left_by (mark_called book.now track.now number (length line.old)) line.old }
    ensures fits { IfOk result (λ n. n ≤ 96) }
    ensures laws { MarkLines }
    ensures exact { LinesExact }
{
    written(line, || line_of(book, track, number))
}
