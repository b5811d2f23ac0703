// What pairs modulo p answer as a ring and as a field.
ghost use Rattle.std.specs.Prelude.{◌≡◌};
ghost use Rattle.fields.specs.Pairs.{PairsMade, of_pairs};
ghost use Rattle.theory.specs.Pairs.{real, imaginary, pair};
ghost use Rattle.theory.proofs.PairLaws.{pairs_laws_31};

use super::Pairs;
use crate::residues::Residues;
use refusals::Refusal;
use ring::{Field, Ring, RingFault};

impl Pairs {
    // The pairs modulo p, unless p is outside 3 to 2,147,483,647 or does not leave 3 on division by 4.
    pub fn new(p: u64) -> Result<Pairs, Refusal>
        ensures { PairsMade p result }
    {
        let base = Residues::new(p)?;
        if p % 4 == 3 {
            Ok(Pairs { base })
        } else {
            Err(Refusal::Modulus)
        }
    }

    fn real(&self, a: u64) -> u64
        ensures { result ≡ real self.now.base.q a }
    {
        self.base.remainder(a)
    }

    fn imaginary(&self, a: u64) -> u64
        ensures { result ≡ imaginary self.now.base.q a }
    {
        self.base.remainder(a / self.base.size())
    }

    // The code of x + y·i.
    fn code(&self, x: u64, y: u64) -> u64
        ensures { result ≡ pair self.now.base.q x y }
    {
        self.base.remainder(x) + self.base.size() * self.base.remainder(y)
    }
}

impl Ring for Pairs {
    ghost meaning = { of_pairs };

    ghost laws = { λ r. pairs_laws_31 r.base.q r.low r.base.high };

    fn size(&self) -> u64 {
        self.base.size() * self.base.size()
    }

    fn sum(&self, a: u64, b: u64) -> u64 {
        self.code(
            self.real(a) + self.real(b),
            self.imaginary(a) + self.imaginary(b),
        )
    }

    fn negative(&self, a: u64) -> u64 {
        let p = self.base.size();
        self.code(p - self.real(a), p - self.imaginary(a))
    }

    fn product(&self, a: u64, b: u64) -> u64 {
        let (x, y) = (self.real(a), self.imaginary(a));
        let (z, w) = (self.real(b), self.imaginary(b));
        self.code(x * z + (self.size() - y * w), x * w + y * z)
    }
}

impl Field for Pairs {
    // The conjugate x − y·i, divided by the norm x × x + y × y.
    fn inverse(&self, a: u64) -> Result<u64, RingFault> {
        let p = self.base.size();
        let (x, y) = (self.real(a), self.imaginary(a));
        let norm = x * x + y * y;
        let v = self.base.invert(norm).ok_or(RingFault::NoInverse(a))?;
        Ok(self.code(x * v, (p - y) * v))
    }
}
