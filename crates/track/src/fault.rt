// Why no track is written.
use std::alloc::AllocError;
use std::io;
use std::num::{IntErrorKind, ParseIntError};
use thiserror::Error;

#[derive(Clone, Copy, Debug, Error)]
pub(crate) enum Wrong {
    #[error("not text")]
    NoText,
    #[error("not a whole number")]
    NoNumber,
    #[error("the mark is above 4294967295")]
    TooLarge,
    #[error("more than 512 marks")]
    TooMany,
}

#[derive(Clone, Copy, Debug, Error)]
pub(crate) enum Fault {
    #[error("takes no arguments; usage: track < MARKS > TRACK, with one decimal mark a line")]
    Arguments,
    // the number of a line of the input, from 1, and what is wrong with it
    #[error("line {number}: {wrong}")]
    Line { number: u64, wrong: Wrong },
    // reading or writing failed
    #[error(transparent)]
    System(#[from] io::Error),
    #[error("out of memory")]
    Memory(#[from(alloc)] AllocError),
}

impl From<ParseIntError> for Wrong {
    fn from(why: ParseIntError) -> Wrong {
        match why.kind() {
            IntErrorKind::PosOverflow => Wrong::TooLarge,
            _ => Wrong::NoNumber,
        }
    }
}
