// Why a call declines. Every refusal of every call is a case of one enum, and each case has a number.
#![tactic(auto)]

ghost use Rattle.std.specs.Prelude.{◌≡◌};
ghost use Rattle.refusals.specs.Fault.{refused_by};
ghost use Rattle.refusals.specs.Number.{numbered};

use joining::JoiningFault;
use std::error::Error;
use std::fmt;

// Where a field showed that it is not lawful: in an inverse that is missing, a ladder without rank, or elsewhere in the search for a root.
#[derive(Clone, Copy, PartialEq, Eq, Debug)]
pub enum Layer {
    Ring,
    Joining,
    Search,
}

#[derive(Clone, Copy, PartialEq, Eq, Debug)]
pub enum Refusal {
    // 1: a residue modulus outside 2 to 2,147,483,647, or a pair modulus outside 3 to 2,147,483,647 or not leaving 3 on division by 4
    Modulus,
    // 2: the size does not leave 1 on division by 8
    Size,
    // 3: eight factors are held
    Full,
    // 4: r is even, below 3 or above 4,095
    Base,
    // 5: f is 0, or r cannot be divided out of the rest f times
    Power,
    // 6: r shares a divisor above 1 with a held r
    Shared,
    // 7: a given root is not below the size, or lacks the stated order or square
    Root,
    // 8: no code below the size from 1 to 4,095 leads to the root sought
    Unfound,
    // 9: the plan has no fourth root
    NoFourth,
    // 10: the rest is above 1,024
    Rest,
    // 11: the mark is not below the size
    Mark,
    // 12: the mark is 0
    Zero,
    // 13: the mark is no square
    NoSquare,
    // 14: the field has shown that it is not lawful: where, in which step of rooting, and the code in hand; plain numbers, as lines print them
    Unlawful { layer: Layer, step: u8, code: u64 },
    // 15: the bytes for output are fewer than 96 for a line, or fewer than 16 + 12 × (factors held) for a book
    Room,
    // 16: a book has fewer than 16 bytes, or its first word is not 1
    Format,
    // 17: a book's count is above 8, its length is not 16 + 12 × count, or an offset is not as stated
    Layout,
    // 18: a track has fewer than 8 bytes, a count above 512, an offset other than 8, or a length other than 8 + 4 × count
    Track,
    // 19: the line number is not below the track's count
    Line,
}

impl Refusal {
    // No `From`: a reader of `u8::from(why)` would not see which number is meant.
    pub fn number(self) -> u8
        ensures { result ≡ numbered self }
    {
        match self {
            Refusal::Modulus => 1,
            Refusal::Size => 2,
            Refusal::Full => 3,
            Refusal::Base => 4,
            Refusal::Power => 5,
            Refusal::Shared => 6,
            Refusal::Root => 7,
            Refusal::Unfound => 8,
            Refusal::NoFourth => 9,
            Refusal::Rest => 10,
            Refusal::Mark => 11,
            Refusal::Zero => 12,
            Refusal::NoSquare => 13,
            Refusal::Unlawful { .. } => 14,
            Refusal::Room => 15,
            Refusal::Format => 16,
            Refusal::Layout => 17,
            Refusal::Track => 18,
            Refusal::Line => 19,
        }
    }
}

// By hand, as that of a refusal below.
impl fmt::Display for Layer {
    ghost use Rattle.std.specs.Prelude.{Some};
    ghost use Rattle.refusals.specs.Reason.{layer_name};

    ghost output = { λ layer. Some (layer_name layer) };

    fn fmt<W: fmt::Write>(&self, f: &mut fmt::Formatter<W>) -> fmt::Result {
        match self {
            Layer::Ring => f.write_str("ring"),
            Layer::Joining => f.write_str("joining"),
            Layer::Search => f.write_str("search"),
        }
    }
}

// The reason in words. By hand, since a derived `Display` does not promise its text.
impl fmt::Display for Refusal {
    ghost use Rattle.std.specs.Prelude.{Some};
    ghost use Rattle.refusals.specs.Reason.{reason};

    ghost output = { λ why. Some (reason why) };

    fn fmt<W: fmt::Write>(&self, f: &mut fmt::Formatter<W>) -> fmt::Result {
        match self {
            Refusal::Modulus => f.write_str("the modulus is not one that the field takes"),
            Refusal::Size => f.write_str("the size does not leave 1 on division by 8"),
            Refusal::Full => f.write_str("eight factors are held"),
            Refusal::Base => f.write_str("r is even, below 3 or above 4095"),
            Refusal::Power => f.write_str("f is 0, or r cannot be divided out of the rest f times"),
            Refusal::Shared => f.write_str("r shares a divisor above 1 with a held r"),
            Refusal::Root => f.write_str(
                "the root is not below the size, or lacks the stated order or square",
            ),
            Refusal::Unfound => f.write_str("no code from 1 to 4095 leads to the root sought"),
            Refusal::NoFourth => f.write_str("the plan has no fourth root"),
            Refusal::Rest => f.write_str("the rest is above 1024"),
            Refusal::Mark => f.write_str("the mark is not below the size"),
            Refusal::Zero => f.write_str("the mark is 0"),
            Refusal::NoSquare => f.write_str("the mark is no square"),
            Refusal::Unlawful { layer, step, code } => write!(
                f,
                "the field is not lawful, as the {layer} shows in step {step} with the code {code}"
            ),
            Refusal::Room => f.write_str("the bytes for output are too few"),
            Refusal::Format => f.write_str(
                "the book has fewer than 16 bytes, or its first word is not 1",
            ),
            Refusal::Layout => f.write_str(
                "the book's count is above 8, or its length or an offset does not fit the count",
            ),
            Refusal::Track => f.write_str(
                "the track has fewer than 8 bytes, its count is above 512, or its offset or length does not fit the count",
            ),
            Refusal::Line => f.write_str("the line number is not below the track's count"),
        }
    }
}

impl Error for Refusal {}

// An inverse is taken in step 6; a ladder by 2 belongs to step 3, any other to step 4.
impl From<JoiningFault> for Refusal {
    ghost from_gives = { λ fault r. r ≡ refused_by fault };

    fn from(fault: JoiningFault) -> Refusal {
        match fault {
            JoiningFault::NoInverse(code) => Refusal::Unlawful {
                layer: Layer::Ring,
                step: 6,
                code,
            },
            JoiningFault::NoRank { by, code } => {
                let step = if by == 2 { 3 } else { 4 };
                Refusal::Unlawful {
                    layer: Layer::Joining,
                    step,
                    code,
                }
            }
        }
    }
}
