// Looking for roots of one among the codes 1, 2, … .
ghost use Rattle.std.specs.Prelude.{◌≡◌, ℕ, ◌-◌, ◌<◌, Bool};
ghost use Rattle.theory.specs.First.{first_some};
ghost use Rattle.theory.specs.Operation.{multiplication};
ghost use Rattle.joining.specs.Ladder.{climbed};
ghost use Rattle.roots.specs.Checks.{Tells};
ghost use Rattle.roots.specs.Drafts.{passing, leads, leads_fourth, tries};
ghost use Rattle.roots.specs.State.{cofactor, multiplicity};

use crate::checks::{has_order, is_fourth};
use crate::divide::parted;
use joining::{Back, Ladder, Multiplication};
use ring::Ring;

// The rung to which the ladder from g^u leads, where there is one that passes.
fn led<R: Ring, T: Fn(u64) -> bool>(
    joining: &Multiplication<R>,
    ladder: Ladder,
    u: u64,
    g: u64,
    passes: &T,
) -> Option<u64>
    requires { T.IsAlwaysCallable passes.now }
    ensures { (test : ℕ → Bool) → Tells (T.post passes.now) test → result ≡ passing test (climbed (multiplication (R.Ring.meaning joining.now.ring.now)) g u ladder.by ladder.length ladder.back) }
{
    let (rung, _) = ladder.climb(joining, g, u).ok()?;
    rung.filter(|z| passes(*z))
}

// With size − 1 = by^F × u, what the first code below the size from 1 to 4,095 leads to: the rung that stands `back` before the rank of the ladder from g^u by `by`.
fn first_led<R: Ring, T: Fn(u64) -> bool>(ring: &R, by: u64, back: Back, passes: T) -> Option<u64>
    requires some { 0 < by }
    requires callable { T.IsAlwaysCallable passes }
    ensures { let m = R.Ring.meaning ring.now in (test : ℕ → Bool) → Tells (T.post passes) test → result ≡ first_some (λ g. passing test (climbed (multiplication m) g (cofactor by (m.size - 1)) by (multiplicity by (m.size - 1)) back)) 1 (tries m) }
{
    let size = ring.size();
    let (u, length) = parted(by, size - 1);
    let ladder = Ladder { by, length, back };
    let joining = Multiplication::new(ring);
    (1..size.min(4096)).find_map(|g| led(&joining, ladder, u, g, &passes))
}

// A number of order exactly r: the first to which a code leads.
pub(crate) fn seek_order<R: Ring>(ring: &R, r: u64) -> Option<u64>
    requires { 0 < r }
    ensures { result ≡ first_some (leads (R.Ring.meaning ring.now) r) 1 (tries (R.Ring.meaning ring.now)) }
{
    first_led(ring, r, Back::One, |z| has_order(ring, z, r))
}

// A number whose square is the negative of 1: the first to which a code leads.
pub(crate) fn seek_fourth_root<R: Ring>(ring: &R) -> Option<u64>
    ensures { result ≡ first_some (leads_fourth (R.Ring.meaning ring.now)) 1 (tries (R.Ring.meaning ring.now)) }
{
    first_led(ring, 2, Back::Two, |i| is_fourth(ring, i))
}
