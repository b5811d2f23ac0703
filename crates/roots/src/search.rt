// Steps 4 and 5 of rooting: the factors in the order adopted, until a power of a ζ matches.
ghost use Rattle.std.specs.Prelude.{◌≡◌, ◌+◌, ◌-◌, ◌*◌, ◌/◌, ◌^◌, ◌<◌, ◌≤◌, false, IfOk};
ghost use Rattle.joining.specs.declared.Back.TheVariants.{One};
ghost use Rattle.roots.specs.Rooting.{turned, squares_to, searched};
ghost use Rattle.roots.specs.Steps.{rung_at, counted};

use crate::divide::by_power;
use crate::factor::Factor;
use crate::holdings::Held;
use joining::{Back, Ladder, Ratios};
use refusals::{Layer, Refusal};
use ring::Ring;
use theory::Ratio;

// The search for a root of the ratios' mark, from the code g that was kept.
#[derive_where(Clone, Copy)]
pub(crate) struct Search<'a, R: Ring> {
    pub(crate) ratios: Ratios<'a, R>,
    pub(crate) g: u64,
}

impl<'a, R: Ring> Search<'a, R> {
    // What the search answers where a step shows that the ring is not lawful.
    pub(crate) fn unlawful(&self, step: u8) -> Refusal
        ensures { result ≡ Refusal.Unlawful Layer.Search step self.now.g }
    {
        Refusal::Unlawful {
            layer: Layer::Search,
            step,
            code: self.g,
        }
    }

    // x(z − 1) : y(z + 1)
    fn turn(&self, e: Ratio, z: u64) -> Ratio
        ensures { result ≡ turned (R.Ring.meaning self.now.ratios.ring.now) e z }
    {
        let ring = self.ratios.ring;
        Ratio {
            top: ring.product(e.top, ring.sum(z, ring.negative(1))),
            bottom: ring.product(e.bottom, ring.sum(z, 1)),
        }
    }

    // The square of the ratio is the mark.
    fn matches_mark(&self, e: Ratio) -> bool
        ensures { result ≡ squares_to (R.Ring.meaning self.now.ratios.ring.now) self.now.ratios.mark e }
    {
        let Ratios { ring, mark } = self.ratios;
        ring.product(e.top, e.top) == ring.product(mark, ring.product(e.bottom, e.bottom))
    }

    // The rung to which the ladder from the power `exponent` of [g] leads. A ladder without rank becomes a refusal.
    pub(crate) fn rung(
        &self,
        ladder: Ladder,
        exponent: u64,
    ) -> Result<(Option<Ratio>, u64), Refusal>
        ensures value { let m = R.Ring.meaning self.now.ratios.ring.now in result ≡ rung_at m self.now.ratios.mark self.now.g exponent ladder.by ladder.length ladder.back }
        ensures few { IfOk result (λ found. found.1 ≤ 126 + 126 * ladder.length) }
    {
        Ok(ladder.climb(&self.ratios, self.g, exponent)?)
    }

    // The rung before the rank of the factor's ladder, if the factor serves.
    fn factor_rung(&self, factor: Factor) -> Result<(Option<Ratio>, u64), Refusal>
        requires { 0 < factor.r }
        ensures value { let m = R.Ring.meaning self.now.ratios.ring.now in result ≡ rung_at m self.now.ratios.mark self.now.g ((m.size - 1) / factor.r ^ factor.f) factor.r factor.f One }
        ensures few { IfOk result (λ found. found.1 ≤ 2 ^ 23) }
    {
        let exponent = by_power(self.ratios.ring.size() - 1, factor.r, factor.f);
        let ladder = Ladder {
            by: factor.r,
            length: factor.f,
            back: Back::One,
        };
        self.rung(ladder, exponent)
    }

    // The first ratio whose square is the mark, with the tests and the joinings made; n joinings were made before.
    pub(crate) fn first_match(&self, held: &Held, n: u64) -> Result<((Ratio, u64), u64), Refusal>
        requires { n ≤ 2 ^ 32 }
        ensures { result ≡ counted (searched (R.Ring.meaning self.now.ratios.ring.now) self.now.ratios.mark self.now.g held.now.factors false n 0) }
    {
        let mut joinings = n;
        let mut tests = 0;
        // whether a factor has served so far, which tells step 5 from step 4
        let mut served = false;
        // the first match leaves both loops at once
        let found = 'search: {
            for factor in held.factors() {
                let (rung, climbing) = self.factor_rung(*factor)?;
                joinings += climbing;
                let Some(e) = rung else {
                    continue;
                };
                served = true;
                let mut z = 1;
                for _j in 0..factor.r / 2 {
                    z = self.ratios.ring.product(z, factor.zeta);
                    tests += 1;
                    let ratio = self.turn(e, z);
                    if self.matches_mark(ratio) {
                        break 'search Some(ratio);
                    }
                }
            }
            None
        };
        // not by ok_or, which would make the refusal also where a ratio is found
        let Some(ratio) = found else {
            return Err(self.unlawful(if served { 5 } else { 4 }));
        };
        Ok(((ratio, tests), joinings))
    }
}
