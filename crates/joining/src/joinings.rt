// The two joinings that a ring gives. They borrow the ring.
ghost use Rattle.std.specs.Prelude.{◌≡◌};
ghost use Rattle.theory.proofs.JoiningLaws.{multiplication_laws, ratios_laws};
ghost use Rattle.theory.specs.Operation.{multiplication, ratios};

use super::Joining;
use ring::Ring;
use theory::Ratio;

// The numbers of a ring under multiplication: a code is its own element, and 1 is spent.
#[derive_where(Clone, Copy)]
pub struct Multiplication<'a, R: Ring> {
    ring: &'a R,
}

impl<'a, R: Ring> Multiplication<'a, R> {
    pub fn new(ring: &'a R) -> Self
        ensures { result.ring.now ≡ ring.now }
    {
        Multiplication { ring }
    }
}

impl<'a, R: Ring> Joining for Multiplication<'a, R> {
    type Element = u64;

    ghost meaning = { λ j. multiplication (R.Ring.meaning j.ring.now) };

    ghost laws = { λ j. multiplication_laws _ (R.Ring.laws j.ring.now) };

    fn neutral(&self) -> u64 {
        1
    }

    fn join(&self, a: u64, b: u64) -> u64 {
        self.ring.product(a, b)
    }

    fn reduced(&self, a: u64) -> u64 {
        self.ring.remainder(a)
    }

    fn is_spent(&self, a: u64) -> bool {
        self.ring.remainder(a) == 1
    }

    fn element(&self, code: u64) -> u64 {
        code
    }
}

// The ratios for a mark: the element of a code g is g : 1, and a ratio with the bottom 0 is spent.
#[derive_where(Clone, Copy)]
pub struct Ratios<'a, R: Ring> {
    pub ring: &'a R,
    pub mark: u64,
}

impl<'a, R: Ring> Ratios<'a, R> {
    pub fn new(ring: &'a R, mark: u64) -> Self
        ensures { (result.ring.now ≡ ring.now) × (result.mark ≡ mark) }
    {
        Ratios { ring, mark }
    }
}

impl<'a, R: Ring> Joining for Ratios<'a, R> {
    type Element = Ratio;

    ghost meaning = { λ j. ratios (R.Ring.meaning j.ring.now) j.mark };

    ghost laws = { λ j. ratios_laws _ (R.Ring.laws j.ring.now) j.mark };

    fn neutral(&self) -> Ratio {
        Ratio { top: 1, bottom: 0 }
    }

    fn join(&self, a: Ratio, b: Ratio) -> Ratio {
        let ring = self.ring;
        let tops = ring.product(a.top, b.top);
        let bottoms = ring.product(a.bottom, b.bottom);
        let left = ring.product(a.top, b.bottom);
        let right = ring.product(a.bottom, b.top);
        Ratio {
            top: ring.sum(tops, ring.product(self.mark, bottoms)),
            bottom: ring.sum(left, right),
        }
    }

    fn reduced(&self, a: Ratio) -> Ratio {
        Ratio {
            top: self.ring.remainder(a.top),
            bottom: self.ring.remainder(a.bottom),
        }
    }

    fn is_spent(&self, a: Ratio) -> bool {
        self.ring.remainder(a.bottom) == 0
    }

    fn element(&self, code: u64) -> Ratio {
        Ratio {
            top: code,
            bottom: 1,
        }
    }
}
