// What is gathered over a field, in its two stages: a draft takes factors and a fourth root, and a plan roots marks.
ghost use Rattle.std.specs.Prelude.{◌≡◌, ◌≤◌, true, length};
ghost use Rattle.roots.specs.Small.{all_small};

use crate::factor::Factor;
use crate::holdings::Held;
use ring::Field;
use std::marker::PhantomData;

// The stage of a draft.
#[derive(Clone, Copy)]
pub struct Open;

// The stage of a plan.
#[derive(Clone, Copy)]
pub struct Closed;

// A field, and what is held over it. The stage says which calls there are.
#[derive(Drop)]
pub struct Gathered<F, Stage> {
    pub(crate) field: F,
    pub(crate) held: Held,
    pub(crate) stage: PhantomData<Stage>,
    // what is held keeps this of itself; said here, where other crates can see it
    ghost small: { all_small held.factors ≡ true },
    ghost few: { length held.factors ≤ 8 },
}

impl<F: Field, Stage> Gathered<F, Stage> {
    pub fn field(&self) -> &F
        ensures { result.now ≡ self.now.field }
    {
        &self.field
    }

    pub fn factors(&self) -> &[Factor]
        ensures value { result.now ≡ self.now.held.factors }
        ensures small { all_small result.now ≡ true }
        ensures few { length result.now ≤ 8 }
    {
        self.held.factors()
    }

    pub fn rest(&self) -> u64
        ensures { result ≡ self.now.held.rest }
    {
        self.held.rest()
    }

    pub fn fourth(&self) -> Option<u64>
        ensures { result ≡ self.now.held.fourth }
    {
        self.held.fourth()
    }
}
