// Step 2 of rooting: a code g whose [g] is of use, or that is itself a root.
ghost use Rattle.std.specs.Prelude.{◌≡◌, ◌-◌, ◌*◌, ◌^◌, ◌≤◌, IfOk};
ghost use Rattle.theory.specs.First.{first};
ghost use Rattle.roots.specs.Rooting.{ends};
ghost use Rattle.roots.specs.Steps.{begins};

use joining::{Joining, Ratios, power};
use refusals::{Layer, Refusal};
use ring::Ring;

// The code that ends the search. The names of the cases say what it is good for, which those of a Result would not.
#[derive(Clone, Copy)]
pub(crate) enum Begun {
    // its square is the mark
    Root(u64),
    // the power 2t of [g] is not spent
    Kept(u64),
}

// The first g below 2t that ends the search, with the joinings made. A loop, since those for the codes passed over count too.
pub(crate) fn first_code<R: Ring>(ratios: &Ratios<R>, t: u64) -> Result<(Begun, u64), Refusal>
    requires { t ≤ 1024 }
    ensures value { let m = R.Ring.meaning ratios.now.ring.now in result ≡ begins m t ratios.now.mark (first (ends m t ratios.now.mark) 1 (2 * t - 1)) }
    ensures few { IfOk result (λ found. found.1 ≤ 2 ^ 20) }
{
    let mut joinings = 0;
    for g in 1..2 * t {
        if ratios.ring.product(g, g) == ratios.mark {
            return Ok((Begun::Root(g), joinings));
        }
        let (raised, raising) = power(ratios, ratios.element(g), 2 * t);
        joinings += raising;
        if !ratios.is_spent(raised) {
            return Ok((Begun::Kept(g), joinings));
        }
    }
    Err(Refusal::Unlawful {
        layer: Layer::Search,
        step: 2,
        code: 0,
    })
}
