// Rings and fields as anybody may bring them: what their calls answer, and the laws that each shows of its meaning.
#![tactic(auto)]

ghost use Rattle.std.specs.Prelude.{◌≡◌, ℕ, ◌%◌, ◌<◌};
ghost use Rattle.ring.specs.Inverse.{Inverted};
ghost use Rattle.theory.specs.Meaning.{Meaning, Laws};

// What a ring reports where it cannot answer: the number that has no inverse.
#[derive(Clone, Copy, PartialEq, Eq, Debug)]
pub enum RingFault {
    NoInverse(u64),
}

// A ring of the given meaning. A code at or above the size counts as its remainder by the size.
pub trait Ring {
    ghost meaning: { Self → Meaning };

    ghost laws: { (r : Self) → Laws (meaning r) };

    fn size(&self) -> u64
        ensures { result ≡ (meaning self.now).size };

    fn sum(&self, a: u64, b: u64) -> u64
        ensures { result ≡ (meaning self.now).sum a b };

    fn negative(&self, a: u64) -> u64
        ensures { result ≡ (meaning self.now).negative a };

    fn product(&self, a: u64, b: u64) -> u64
        ensures { result ≡ (meaning self.now).product a b };

    // The remainder of a code by the size. A code that is below the size costs no division.
    // Not `final`, so that the operations of a ring may call it themselves.
    fn remainder(&self, code: u64) -> u64
        ensures { result ≡ code % (meaning self.now).size }
    {
        let size = self.size();
        if code < size { code } else { code % size }
    }
}

// A ring that can also invert: the b whose product with a is 1, and a fault exactly where there is none.
pub trait Field: Ring {
    fn inverse(&self, a: u64) -> Result<u64, RingFault>
        ensures { Inverted (Self.Ring.meaning self.now) a result };
}
