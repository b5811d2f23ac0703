// What a draft and a plan hold besides their field.
mod keeping;

use crate::factor::Factor;
use arrayvec::ArrayVec;
use std::marker::Model;

// Up to eight factors in the order adopted, the rest that they leave, and a number whose square is the negative of 1. Contracts see the state.
#[derive(Drop)]
pub struct Held {
    factors: ArrayVec<Factor, 8>,
    rest: u64,
    fourth: Option<u64>,
}

impl Model for Held {
    ghost use Rattle.std.specs.Prelude.{◌≡◌, true};
    ghost use Rattle.roots.specs.Small.{all_small};
    ghost use Rattle.roots.specs.State.{State};

    ghost Value = { State };

    ghost view = { λ h. record { factors = h.factors.items; rest = h.rest; fourth = h.fourth } };

    // no r is 0, nor so large that counting to its half takes long
    ghost invariant = { λ h. all_small h.factors.items ≡ true };
}
