// What residues modulo q answer as a ring and as a field.
ghost use Rattle.std.specs.Prelude.{◌≡◌};
ghost use Rattle.fields.specs.Inverse.{Inverse};
ghost use Rattle.fields.specs.Residues.{ResiduesMade, of_residues};
ghost use Rattle.theory.specs.Meaning.{Lawful};
ghost use Rattle.theory.specs.Residues.{residues};
ghost use Rattle.theory.proofs.ResidueLaws.{residues_laws_31};

use super::Residues;
use refusals::Refusal;
use ring::{Field, Ring, RingFault};

impl Residues {
    // The residues modulo q, unless q is outside 2 to 2,147,483,647.
    pub fn new(q: u64) -> Result<Residues, Refusal>
        ensures { ResiduesMade q result }
    {
        if (2..=2_147_483_647).contains(&q) {
            Ok(Residues { q })
        } else {
            Err(Refusal::Modulus)
        }
    }

    // The b below q whose product with a is 1 modulo q, if there is one, by Euclid's steps:
    // at each of them the remainder r is t × a, and the next one, s, is u × a, modulo q.
    pub(crate) fn invert(&self, a: u64) -> Option<u64>
        ensures { Inverse self.now.q a result }
    {
        let q = self.q;
        let (mut r, mut s) = (q, self.remainder(a));
        let (mut t, mut u) = (0, 1);
        while s != 0 {
            let quotient = r / s;
            (r, s) = (s, r % s);
            (t, u) = (u, (t + (q - quotient * u % q)) % q);
        }
        (r == 1).then_some(t)
    }
}

// The day's field: the residues modulo the prime 2,013,265,921.
pub fn day_field() -> Residues
    ensures { (of_residues result ≡ residues 2013265921) × (Lawful (of_residues result)) }
{
    Residues { q: 2_013_265_921 }
}

impl Ring for Residues {
    ghost meaning = { of_residues };

    ghost laws = { λ r. residues_laws_31 r.q r.low r.high };

    fn size(&self) -> u64 {
        self.q
    }

    fn sum(&self, a: u64, b: u64) -> u64 {
        let c = self.remainder(a) + self.remainder(b);
        if c < self.q { c } else { c - self.q }
    }

    fn negative(&self, a: u64) -> u64 {
        let r = self.remainder(a);
        if r == 0 { 0 } else { self.q - r }
    }

    fn product(&self, a: u64, b: u64) -> u64 {
        self.remainder(a) * self.remainder(b) % self.q
    }
}

impl Field for Residues {
    fn inverse(&self, a: u64) -> Result<u64, RingFault> {
        self.invert(a).ok_or(RingFault::NoInverse(a))
    }
}
