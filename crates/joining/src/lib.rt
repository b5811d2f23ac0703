// Joinings: what one can do, powers and ladders in any of them, and the two that a ring gives.
#![tactic(auto)]

ghost use Rattle.std.specs.Prelude.{◌≡◌};
ghost use Rattle.joining.specs.Fault.{fault_of};
ghost use Rattle.theory.specs.Operation.{Operation, OperationLaws};

mod joinings;
mod ladders;
mod powers;
mod quotients;

pub use joinings::{Multiplication, Ratios};
pub use ladders::Ladder;
pub use powers::power;
pub use quotients::quotient;
use ring::RingFault;

// What a joining reports where it cannot answer.
#[derive(Clone, Copy, PartialEq, Eq, Debug)]
pub enum JoiningFault {
    // a number without inverse
    NoInverse(u64),
    // a ladder by `by`, from a power of the element of `code`, in which nothing is spent
    NoRank { by: u64, code: u64 },
}

impl From<RingFault> for JoiningFault {
    ghost from_gives = { λ fault r. r ≡ fault_of fault };

    fn from(fault: RingFault) -> JoiningFault {
        match fault {
            RingFault::NoInverse(a) => JoiningFault::NoInverse(a),
        }
    }
}

// How many rungs before the rank of a ladder.
#[derive(Clone, Copy, PartialEq, Eq, Debug)]
pub enum Back {
    One,
    Two,
}

// A commutative, associative operation with a neutral element. Elements are spent or not, and each code stands for one.
pub trait Joining {
    type Element: Copy;

    ghost meaning: { Self → Operation Self.Element };

    ghost laws: { (j : Self) → OperationLaws (meaning j) };

    fn neutral(&self) -> Self::Element
        ensures { result ≡ (meaning self.now).neutral };

    fn join(&self, a: Self::Element, b: Self::Element) -> Self::Element
        ensures { result ≡ (meaning self.now).join a b };

    // What an element counts as, where its codes may be at or above the size.
    fn reduced(&self, a: Self::Element) -> Self::Element
        ensures { result ≡ (meaning self.now).join (meaning self.now).neutral a };

    fn is_spent(&self, a: Self::Element) -> bool
        ensures { result ≡ (meaning self.now).spent a };

    fn element(&self, code: u64) -> Self::Element
        ensures { result ≡ (meaning self.now).element code };
}
