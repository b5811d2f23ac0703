// A whole list: the head line, and then the line of each mark, by the same two calls that a program in C makes.
ghost use Rattle.std.specs.Prelude.{◌≡◌, ℕ, ◌≤◌, List, ◌++◌, Ok, Result, length, take, drop, replicate, IfOk, OnOk};
ghost use Rattle.std.specs.Fn.{FnOnceReturnsAtMut};
ghost use Rattle.refusals.specs.declared.Refusal.{Refusal};
ghost use Rattle.lists.specs.Calls.{PutsFront, lines_from, listed};
ghost use Rattle.lists.specs.Cut.{cut_at};
ghost use Rattle.lists.specs.Tracks.{marks_in, tracked};

use crate::call::{head_line, mark_line};
use crate::input::cut;
use crate::track::Track;
use refusals::Refusal;
use std::alloc::{AllocError, Global};

// Puts the line that a call writes behind the others, and answers its length; where the call is refused there is none.
fn put_line<F: FnOnce(&mut [u8]) -> Result<usize, Refusal>>(
    out: &mut Vec<u8>,
    call: F,
) -> Result<Option<usize>, AllocError>
    requires callable { F.IsAlwaysCallable call }
    requires fits { (line : List ℕ) (n : ℕ) (after : List ℕ) → FnOnceReturnsAtMut F.FnOnce call line (Ok n) after → n ≤ 96 }
    ensures { IfOk result (λ put. (answer : Result ℕ Refusal) × (line : List ℕ) × FnOnceReturnsAtMut F.FnOnce call (replicate 96 0) answer line × PutsFront answer line out.old.items put out.new.items) }
{
    // An array, since the call takes bytes handed over, as in C.
    let mut line = [0u8; 96];
    let Ok(length) = call(&mut line) else {
        return Ok(None);
    };
    out.extend_from_slice(&line[..length])?;
    Ok(Some(length))
}

// The marks are taken one after the other, each with its number; the line call roots it, as it does for a program in C. The loop goes over the
// marks themselves, as a list is described.
fn put_lines(out: &mut Vec<u8>, book: &[u8], track: &[u8], marks: &[u32]) -> Result<(), AllocError>
    ensures { OnOk result (out.new.items ≡ out.old.items ++ lines_from book.now track.now 0 (length marks.now)) }
{
    for (number, _mark) in marks.iter().enumerate() {
        let put = put_line(out, |line| mark_line(book, track, number as u64, line))?;
        if put.is_none() {
            return Ok(());
        }
    }
    Ok(())
}

// The marks of a track; of one that is refused, none. A match, since both cases hand on the heap: as a chain it would be no plainer.
fn marks_of(heap: Global, track: &[u8]) -> Result<Vec<u32>, AllocError>
    ensures { IfOk result (λ v. length v.items ≡ marks_in (tracked track.now)) }
{
    match Track::open(track) {
        Ok(track) => track.marks(heap),
        Err(_) => Ok(Vec::new(heap)),
    }
}

// The list of a book followed at once by a track, or want of memory.
pub fn list(heap: Global, input: &[u8]) -> Result<Vec<u8>, AllocError>
    ensures { IfOk result (λ v. v.items ≡ listed (take (cut_at input.now) input.now) (drop (cut_at input.now) input.now)) }
{
    let (book, track) = cut(input);
    let mut out = Vec::new(heap);
    put_line(&mut out, |line| head_line(book, track, line))?;
    let marks = marks_of(heap, track)?;
    put_lines(&mut out, book, track, marks.as_slice())?;
    Ok(out)
}
