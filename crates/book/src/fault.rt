// Why no book is written.
use refusals::Refusal;
use roots::Call;
use std::alloc::AllocError;
use std::{fmt, io};
use thiserror::Error;

const USAGE: &str = "usage: book Q                            seeks every factor
       book Q [seek] R F [R F ..]        seeks the factors named
       book Q [adopt] R F Z [R F Z ..]   adopts the factors named
Without 'adopt' an even number of numbers is read in pairs. 'book Q seek' takes no factor.";

// What is wrong with the words of the command line.
#[derive(Clone, Copy, Debug, Error)]
pub(crate) enum Misuse {
    #[error("the modulus is missing")]
    NoModulus,
    #[error("argument {place} is not a whole number below 2^64")]
    NoNumber { place: u64 },
    #[error("the power {f} is above 65535")]
    Power { f: u64 },
    #[error("the words behind the modulus are neither pairs nor triples")]
    Count,
}

// What was being done when a call was refused.
#[derive(Clone, Copy, Debug)]
pub(crate) enum Step {
    Field { modulus: u64 },
    Call(Call),
    Book,
}

#[derive(Clone, Copy, Debug, Error)]
pub(crate) enum Fault {
    #[error("{0}\n{USAGE}")]
    Words(#[from] Misuse),
    #[error("{step}: refused {number} ({why})", number = .why.number(), why = Reason(*.why))]
    Refused { step: Step, why: Refusal },
    // reading the words or writing failed
    #[error(transparent)]
    System(#[from] io::Error),
    #[error("out of memory")]
    Memory(#[from(alloc)] AllocError),
}

// The reason of a refusal as the maker of a book meets it: the field is one of residues, a root that is given is a ζ, and what is written is a book.
#[derive(Clone, Copy)]
struct Reason(Refusal);

impl fmt::Display for Reason {
    fn fmt<W: fmt::Write>(&self, f: &mut fmt::Formatter<W>) -> fmt::Result {
        match self.0 {
            Refusal::Modulus => f.write_str("the modulus lies outside 2 to 2147483647"),
            Refusal::Root => f.write_str("the root is not below the size, or lacks the order r"),
            Refusal::Room => f.write_str("too few bytes for the book"),
            why => write!(f, "{why}"),
        }
    }
}

// By hand: a step is no error, and the text of a call goes by the call's own case.
impl fmt::Display for Step {
    fn fmt<W: fmt::Write>(&self, f: &mut fmt::Formatter<W>) -> fmt::Result {
        match self {
            Step::Field { modulus } => write!(f, "making the field modulo {modulus}"),
            Step::Call(Call::Seek { r, f: power }) => write!(f, "seeking {r} power {power}"),
            Step::Call(Call::Adopt { r, f: power, zeta }) => {
                write!(f, "adopting {r} power {power} root {zeta}")
            }
            Step::Call(Call::Give { root }) => write!(f, "giving the fourth root {root}"),
            Step::Call(Call::SeekFourth) => f.write_str("seeking the fourth root"),
            Step::Book => f.write_str("writing the book"),
        }
    }
}

impl Step {
    pub(crate) fn refused(self, why: Refusal) -> Fault {
        Fault::Refused { step: self, why }
    }
}
