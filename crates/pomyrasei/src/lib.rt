// The C interface: the two calls on byte slices, each slice a pointer and then a length. include/pomyrasei.h declares them.
#![tactic(auto)]

ghost use Rattle.std.specs.Prelude.{◌≡◌, length};
ghost use Rattle.books.specs.Output.{Written, left_by, length_by};
ghost use Rattle.lists.specs.Calls.{code_by, head_called, mark_called};

use lists::{head_line, mark_line};
use refusals::Refusal;

// 0 for a line, or the number of the refusal: in C an answer is a number.
fn code(answer: Result<usize, Refusal>) -> u32
    ensures { (outcome : Written) → answer ≡ length_by outcome → result ≡ code_by outcome }
{
    match answer {
        Ok(_) => 0,
        Err(why) => u32::from(why.number()),
    }
}

// Writes the head line; answers 0, or the number of the refusal.
#[unsafe(no_mangle)]
pub extern "C" fn pomyrasei_head_line(book: &[u8], track: &[u8], line: &mut [u8]) -> u32
    ensures value { result ≡ code_by (head_called book.now track.now (length line.old)) }
    ensures after { line.new ≡ left_by (head_called book.now track.now (length line.old)) line.old }
{
    code(head_line(book, track, line))
}

// Writes the line of the mark with the given number, from 0; answers 0, or the number of the refusal.
#[unsafe(no_mangle)]
pub extern "C" fn pomyrasei_mark_line(
    book: &[u8],
    track: &[u8],
    number: u64,
    line: &mut [u8],
) -> u32
    ensures value { result ≡ code_by (mark_called book.now track.now number (length line.old)) }
    ensures after { line.new ≡ left_by (mark_called book.now track.now number (length line.old)) line.old }
{
    code(mark_line(book, track, number, line))
}
