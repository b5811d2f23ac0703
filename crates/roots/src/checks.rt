// The tests by which the calls of a draft decide.
ghost use Rattle.std.specs.Prelude.{◌≡◌, ◌<◌, ◌≤◌, true, length, OnOk};
ghost use Rattle.roots.specs.Checks.{base, apart, order_is, fourth_is};
ghost use Rattle.roots.specs.Drafts.{checked};
ghost use Rattle.roots.specs.State.{served};

use crate::divide::{divided_out, gcd};
use crate::factor::Factor;
use crate::holdings::Held;
use refusals::Refusal;
use ring::Ring;

// The sizes that are served leave 1 on division by 8.
pub fn is_served(size: u64) -> bool
    ensures { result ≡ served size }
{
    size % 8 == 1
}

// r is odd, from 3 to 4,095.
pub(crate) fn is_base(r: u64) -> bool
    ensures { result ≡ base r }
{
    r % 2 == 1 && (3..=4095).contains(&r)
}

// r shares no divisor above 1 with the r of any factor.
pub(crate) fn is_apart(r: u64, factors: &[Factor]) -> bool
    ensures { result ≡ apart r factors.now }
{
    factors.iter().all(|factor| gcd(r, factor.r) == 1)
}

// z has order exactly r: after at most r products the power 1 comes, and it comes no earlier. A loop, since each power is made of the one before.
pub(crate) fn has_order<R: Ring>(ring: &R, z: u64, r: u64) -> bool
    ensures { result ≡ order_is (R.Ring.meaning ring.now) z r }
{
    let mut power = 1;
    for k in 1..=r {
        power = ring.product(power, z);
        if power == 1 {
            return k == r;
        }
    }
    false
}

// The square of i is the negative of 1.
pub(crate) fn is_fourth<R: Ring>(ring: &R, i: u64) -> bool
    ensures { result ≡ fourth_is (R.Ring.meaning ring.now) i }
{
    ring.product(i, i) == ring.negative(1)
}

// The checks on r and f that adopting and seeking share, in their order; what passes them is the rest that r^f would leave.
pub(crate) fn check<R: Ring>(ring: &R, held: &Held, r: u64, f: u16) -> Result<u64, Refusal>
    ensures value { result ≡ checked (R.Ring.meaning ring.now) held.now r f }
    ensures room { OnOk result (length held.now.factors < 8) }
    ensures odd { OnOk result (base r ≡ true) }
{
    if !is_served(ring.size()) {
        return Err(Refusal::Size);
    }
    if held.factors().len() >= 8 {
        return Err(Refusal::Full);
    }
    if !is_base(r) {
        return Err(Refusal::Base);
    }
    let left = divided_out(r, f, held.rest()).ok_or(Refusal::Power)?;
    if !is_apart(r, held.factors()) {
        return Err(Refusal::Shared);
    }
    Ok(left)
}
