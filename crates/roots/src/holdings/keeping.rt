// Making and reading what is held.
ghost use Rattle.std.specs.Prelude.{◌≡◌, ◌<◌, ◌≤◌, true, [], ◌∷◌, ◌++◌, length, Some, None};
ghost use Rattle.roots.specs.Checks.{base};
ghost use Rattle.roots.specs.Small.{all_small};

use super::Held;
use crate::factor::Factor;
use arrayvec::ArrayVec;

impl Held {
    // No factor and no fourth root.
    pub(crate) fn new(rest: u64) -> Held
        ensures { result ≡ record { factors = []; rest = rest; fourth = None } }
    {
        Held {
            factors: ArrayVec::new(),
            rest,
            fourth: None,
        }
    }

    pub(crate) fn factors(&self) -> &[Factor]
        ensures value { result.now ≡ self.now.factors }
        ensures small { all_small result.now ≡ true }
        ensures few { length result.now ≤ 8 }
    {
        self.factors.as_slice()
    }

    pub(crate) fn rest(&self) -> u64
        ensures { result ≡ self.now.rest }
    {
        self.rest
    }

    pub(crate) fn fourth(&self) -> Option<u64>
        ensures { result ≡ self.now.fourth }
    {
        self.fourth
    }

    // One factor more, and the rest that it leaves.
    pub(crate) fn push(&mut self, factor: Factor, rest: u64)
        requires { (length self.old.factors < 8) × (base factor.r ≡ true) }
        ensures value { self.new ≡ record { factors = self.old.factors ++ (factor ∷ []); rest = rest; fourth = self.old.fourth } }
        ensures small { all_small self.new.factors ≡ true }
        ensures few { length self.new.factors ≤ 8 }
    {
        self.factors.push(factor);
        self.rest = rest;
    }

    pub(crate) fn set_fourth(&mut self, root: u64)
        ensures { self.new ≡ record { factors = self.old.factors; rest = self.old.rest; fourth = Some root } }
    {
        self.fourth = Some(root);
    }
}
