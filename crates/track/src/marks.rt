// Reading the marks.
ghost use Rattle.std.specs.Prelude.{◌≤◌, IfOk, vec_len};

use crate::fault::{Fault, Wrong};
use std::io;
use std::io::{BufRead, BufReader};

// A track holds no more.
const MOST: usize = 512;

// The mark of a line, or nothing where the line is blank.
fn mark_of(line: &str) -> Result<Option<u32>, Wrong> {
    let word = line.trim_ascii();
    if word.is_empty() {
        return Ok(None);
    }
    Ok(Some(word.parse()?))
}

// Adds the mark of a line, if it has one.
fn take_line(marks: &mut Vec<u32>, number: u64, line: &str) -> Result<(), Fault>
    requires { vec_len marks.old ≤ 512 }
    ensures { vec_len marks.new ≤ 512 }
{
    let at_line = |wrong| Fault::Line { number, wrong };
    let Some(mark) = mark_of(line).map_err(at_line)? else {
        return Ok(());
    };
    if marks.len() >= MOST {
        return Err(at_line(Wrong::TooMany));
    }
    marks.push(mark)?;
    Ok(())
}

// A line that is not text reads as invalid data.
fn unread(number: u64, error: io::Error) -> Fault {
    match error.kind() {
        io::ErrorKind::InvalidData => Fault::Line {
            number,
            wrong: Wrong::NoText,
        },
        _ => Fault::System(error),
    }
}

pub(crate) fn read_marks(rt: &HostRuntime) -> Result<Vec<u32>, Fault>
    ensures { IfOk result (λ v. vec_len v ≤ 512) }
{
    let mut marks = Vec::new(rt.alloc());
    let lines = BufReader::new(rt.alloc(), rt.stdin())?.lines(rt.alloc());
    for (number, line) in (1u64..).zip(lines) {
        let line = line.map_err(|error| unread(number, error))?;
        take_line(&mut marks, number, line.as_str())?;
    }
    Ok(marks)
}
