// Pairs modulo p: the number x + y·i, with i × i the negative of 1, has the code x + p × y.
ghost use Rattle.std.specs.Prelude.{◌≡◌, ◌%◌, ◌≤◌};

pub mod operations;

use crate::residues::Residues;
use ring::Ring;
use std::fmt;

// The ring of pairs modulo p, for any p from 3 to 2,147,483,647 that leaves 3 on division by 4; lawful where p is a prime.
// Its parts x and y are residues modulo p: those of the base, whose q is p.
#[derive(Clone, Copy, PartialEq, Eq)]
pub struct Pairs {
    base: Residues,
    ghost low: { 3 ≤ base.q },
    ghost three: { base.q % 4 ≡ 3 },
}

// By hand, so that it shows p, and not how p is held.
impl fmt::Debug for Pairs {
    fn fmt<W: fmt::Write>(&self, f: &mut fmt::Formatter<W>) -> fmt::Result {
        f.debug_struct("Pairs")
            .field("p", &self.base.size())
            .finish()
    }
}
