// The field with nine elements, as anybody may bring a field of their own. It owns its table of sums, so it is not `Copy`.
#![tactic(auto)]

ghost use Rattle.std.specs.Prelude.{◌≡◌, IfOk};
ghost use Rattle.nine_laws.proofs.NineLaws.{laws_of_nine};
ghost use Rattle.nine_laws.specs.Nine.{sums, nine};
ghost use Rattle.theory.specs.Meaning.{Lawful};

use ring::{Field, Ring, RingFault};
use std::alloc::{AllocError, Global};

// The sum of the codes a and b, in row a and column b.
const SUMS: [[u8; 9]; 9] = [
    [0, 1, 2, 3, 4, 5, 6, 7, 8],
    [1, 5, 3, 8, 7, 0, 4, 6, 2],
    [2, 3, 6, 4, 1, 8, 0, 5, 7],
    [3, 8, 4, 7, 5, 2, 1, 0, 6],
    [4, 7, 1, 5, 8, 6, 3, 2, 0],
    [5, 0, 8, 2, 6, 1, 7, 4, 3],
    [6, 4, 0, 1, 3, 7, 2, 8, 5],
    [7, 6, 5, 0, 2, 4, 8, 3, 1],
    [8, 2, 7, 6, 0, 3, 5, 1, 4],
];

// Code 0 is zero, and code k from 1 to 8 is the power k − 1 of ω, where ω × ω is ω + 1 and 3 is 0.
#[derive(Drop)]
pub struct Nine {
    table: Vec<u8>,
    ghost holds: { table.items ≡ sums },
}

impl Nine {
    pub fn new(heap: Global) -> Result<Nine, AllocError>
        ensures made { IfOk result (λ f. f.table.items ≡ sums) }
        ensures lawful { Lawful nine }
    {
        let table = SUMS.concat(heap)?;
        Ok(Nine { table })
    }
}

impl Ring for Nine {
    ghost meaning = { λ _. nine };

    ghost laws = { λ _. laws_of_nine };

    fn size(&self) -> u64 {
        9
    }

    fn sum(&self, a: u64, b: u64) -> u64 {
        let place = 9 * (a % 9) + b % 9;
        u64::from(self.table[place as usize])
    }

    // The negative of 1 is the power 4 of ω.
    fn negative(&self, a: u64) -> u64 {
        let code = a % 9;
        if code == 0 { 0 } else { 1 + (code - 1 + 4) % 8 }
    }

    fn product(&self, a: u64, b: u64) -> u64 {
        let (a, b) = (a % 9, b % 9);
        if a == 0 || b == 0 {
            0
        } else {
            1 + (a - 1 + (b - 1)) % 8
        }
    }
}

impl Field for Nine {
    fn inverse(&self, a: u64) -> Result<u64, RingFault> {
        let code = a % 9;
        if code == 0 {
            Err(RingFault::NoInverse(a))
        } else {
            Ok(1 + (8 - (code - 1)) % 8)
        }
    }
}
