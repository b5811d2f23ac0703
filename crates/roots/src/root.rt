// Rooting a mark, step by step.
ghost use Rattle.std.specs.Prelude.{◌≡◌, ◌^◌, ◌≤◌, IfOk};
ghost use Rattle.joining.specs.declared.Back.TheVariants.{Two};
ghost use Rattle.roots.specs.Rooting.{answered, kept, tested, rooted};
ghost use Rattle.roots.specs.State.{twos, odd};
ghost use Rattle.roots.specs.Steps.{rung_at};

use crate::begin::{Begun, first_code};
use crate::checks::is_served;
use crate::divide::parted;
use crate::finish::in_order;
use crate::holdings::Held;
use crate::plan::{Answer, Plan};
use crate::search::Search;
use joining::{Back, Ladder, Multiplication, Ratios, power};
use refusals::Refusal;
use ring::{Field, Ring};
use theory::Ratio;

impl<'a, F: Field> Search<'a, F> {
    // The rung two before the rank of the ladder by 2, if the rank is so large.
    fn rung_by_two(&self) -> Result<(Option<Ratio>, u64), Refusal>
        ensures value { let m = F.Ring.meaning self.now.ratios.ring.now in result ≡ rung_at m self.now.ratios.mark self.now.g (odd m.size) 2 (twos m.size) Two }
        ensures few { IfOk result (λ found. found.1 ≤ 2 ^ 20) }
    {
        let (odd, twos) = parted(2, self.ratios.ring.size() - 1);
        let ladder = Ladder {
            by: 2,
            length: twos,
            back: Back::Two,
        };
        self.rung(ladder, odd)
    }

    // Steps 3 to 6, after n joinings; i is the fourth root.
    fn root(&self, held: &Held, i: u64, n: u64) -> Result<Answer, Refusal>
        requires { n ≤ 2 ^ 21 }
        ensures { result ≡ answered (kept (F.Ring.meaning self.now.ratios.ring.now) i held.now.factors self.now.ratios.mark self.now.g n) }
    {
        let (rung, climbing) = self.rung_by_two()?;
        match rung {
            Some(e) => {
                let ratio = Ratio {
                    top: self.ratios.ring.product(e.top, i),
                    bottom: e.bottom,
                };
                self.finish(ratio, (n + climbing, 0))
            }
            None => {
                let ((ratio, tests), joinings) = self.first_match(held, n + climbing)?;
                self.finish(ratio, (joinings, tests))
            }
        }
    }
}

impl<F: Field> Plan<F> {
    // Steps 1 to 6 for a mark that passed the checks.
    fn root_by_steps(&self, i: u64, mark: u64) -> Result<Answer, Refusal>
        requires { self.now.held.rest ≤ 1024 }
        ensures { result ≡ answered (tested (F.Ring.meaning self.now.field) i self.now.held mark) }
    {
        let field = &self.field;
        let (w, testing) = power(&Multiplication::new(field), mark, (field.size() - 1) / 2);
        if w != 1 {
            return Err(Refusal::NoSquare);
        }
        let ratios = Ratios::new(field, mark);
        let (begun, beginning) = first_code(&ratios, self.held.rest())?;
        let joinings = testing + beginning;
        match begun {
            Begun::Root(g) => Ok((in_order(g, field.negative(g)), (joinings, 0))),
            Begun::Kept(g) => Search { ratios, g }.root(&self.held, i, joinings),
        }
    }

    // The checks before the steps, in their order, and then the steps.
    pub(crate) fn root_mark(&self, mark: u64) -> Result<Answer, Refusal>
        ensures { result ≡ answered (rooted (F.Ring.meaning self.now.field) self.now.held mark) }
    {
        let size = self.field.size();
        if !is_served(size) {
            return Err(Refusal::Size);
        }
        let i = self.held.fourth().ok_or(Refusal::NoFourth)?;
        if self.held.rest() > 1024 {
            return Err(Refusal::Rest);
        }
        if mark >= size {
            return Err(Refusal::Mark);
        }
        if mark == 0 {
            return Err(Refusal::Zero);
        }
        self.root_by_steps(i, mark)
    }
}
