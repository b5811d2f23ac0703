// Several plans over one field: which factors of the odd part they hold, and in what power.
use ring::Field;
use roots::{Draft, Plan};

pub(crate) fn is_prime(q: u64) -> bool {
    q > 1 && (2..q).all(|d| q % d != 0)
}

// With a fourth root and no factor: the rest is the whole odd part.
fn bare<F: Field>(field: F) -> Draft<F> {
    let mut draft = Draft::start(field);
    let _ = draft.seek_fourth();
    draft
}

// With each prime in its full power, and the rest 1. The divisors come in rising order, and those that are still there when their turn comes are prime.
// A refusal is passed over here, ends `book`, and is printed by `survey`: a loop for all three would be no shorter.
fn full<F: Field>(field: F) -> Draft<F> {
    let mut draft = bare(field);
    for r in 3..4096u64 {
        let f = draft.full_power(r);
        if f > 0 {
            let _ = draft.seek(r, f);
        }
    }
    draft
}

// With each prime once, so that a higher power leaves a rest above 1. A composite divisor shares a divisor with what is held, and is refused.
fn single<F: Field>(field: F) -> Draft<F> {
    let mut draft = bare(field);
    for r in 3..4096u64 {
        let _ = draft.seek(r, 1);
    }
    draft
}

// With the largest divisor of the odd part up to 4,095 that is accepted, prime or composite, as one factor.
fn composite<F: Field>(field: F) -> Draft<F> {
    let mut draft = bare(field);
    for r in (3..4096u64).rev() {
        if draft.seek(r, 1).is_ok() {
            break;
        }
    }
    draft
}

// With only the largest prime, once.
fn last<F: Field>(field: F) -> Draft<F> {
    let mut draft = bare(field);
    let rest = draft.rest();
    let largest = (3..4096u64).rev().find(|r| rest % *r == 0 && is_prime(*r));
    if let Some(r) = largest {
        let _ = draft.seek(r, 1);
    }
    draft
}

// Closes each draft, and visits the plan.
pub(crate) fn each_plan<F: Field + Copy, V: FnMut(&Plan<F>)>(field: F, mut visit: V)
    requires { V.IsAlwaysCallable visit }
{
    visit(&bare(field).close());
    visit(&full(field).close());
    visit(&single(field).close());
    visit(&composite(field).close());
    visit(&last(field).close());
}
