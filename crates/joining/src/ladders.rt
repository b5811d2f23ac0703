// Ladders in any joining: from an element, power after power, up to the first that is spent.
ghost use Rattle.std.specs.Prelude.{◌≡◌, ◌+◌, ◌*◌, ◌≤◌, IfOk};
ghost use Rattle.joining.specs.Ladder.{climbed, laddered};

use super::{Back, Joining, JoiningFault, power};

// Ladders by `by`, of at most `length` rungs above the first; wanted is the rung `back` before the rank.
#[derive(Clone, Copy, PartialEq, Eq, Debug)]
pub struct Ladder {
    pub by: u64,
    pub length: u16,
    pub back: Back,
}

impl Ladder {
    // The rung that stands `back` before the rank of the ladder from x, if the rank is so large, and the joinings made.
    // It makes no rung after its rank, and none after the rung `length`; where none of these is spent, the fault names `by` and the code.
    pub fn rung_from<J: Joining>(
        self,
        joining: &J,
        x: J::Element,
        code: u64,
    ) -> Result<(Option<J::Element>, u64), JoiningFault>
        ensures value { result ≡ laddered (J.meaning joining.now) x self.by self.length self.back code }
        ensures few { IfOk result (λ found. found.1 ≤ 126 * self.length) }
    {
        let mut here = joining.reduced(x);
        let mut one = None;
        let mut two = None;
        let mut count = 0;
        for _rung in 0..self.length {
            if joining.is_spent(here) {
                break;
            }
            let (next, made) = power(joining, here, self.by);
            two = one;
            one = Some(here);
            here = next;
            count += made;
        }
        if !joining.is_spent(here) {
            return Err(JoiningFault::NoRank { by: self.by, code });
        }
        let rung = match self.back {
            Back::One => one,
            Back::Two => two,
        };
        Ok((rung, count))
    }

    // The same of the ladder from the power `exponent` of the element of the code. The joinings of the power count too.
    pub fn climb<J: Joining>(
        self,
        joining: &J,
        code: u64,
        exponent: u64,
    ) -> Result<(Option<J::Element>, u64), JoiningFault>
        ensures value { result ≡ climbed (J.meaning joining.now) code exponent self.by self.length self.back }
        ensures few { IfOk result (λ found. found.1 ≤ 126 + 126 * self.length) }
    {
        let (start, raising) = power(joining, joining.element(code), exponent);
        let (rung, climbing) = self.rung_from(joining, start, code)?;
        Ok((rung, raising + climbing))
    }
}
