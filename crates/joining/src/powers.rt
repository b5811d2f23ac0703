// Powers in any joining.
ghost use Rattle.std.specs.Prelude.{◌≡◌, ◌≤◌};
ghost use Rattle.theory.specs.Numbers.{joinings};
ghost use Rattle.theory.specs.Operation.{pow};

use super::Joining;

// The power k of x, and the joinings made. It goes down the binary digits of k from the top: a squaring for each below the top, and then a joining with x where the digit is 1.
pub fn power<J: Joining>(joining: &J, x: J::Element, k: u64) -> (J::Element, u64)
    ensures value { result.0 ≡ pow (J.meaning joining.now) x k }
    ensures count { result.1 ≡ joinings k }
    ensures few { result.1 ≤ 126 }
{
    if k == 0 {
        return (joining.neutral(), 0);
    }
    let mut result = joining.reduced(x);
    let mut count = 0;
    for place in (0..k.ilog2()).rev() {
        result = joining.join(result, result);
        count += 1;
        if (k >> place) % 2 == 1 {
            result = joining.join(result, x);
            count += 1;
        }
    }
    (result, count)
}
