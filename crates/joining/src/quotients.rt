// The value of a ratio in a field.
ghost use Rattle.std.specs.Prelude.{◌≡◌};
ghost use Rattle.joining.specs.Quotient.{quotient_of};

use super::JoiningFault;
use ring::Field;
use theory::Ratio;

// Top times the inverse of the bottom.
pub fn quotient<F: Field>(field: &F, ratio: Ratio) -> Result<u64, JoiningFault>
    ensures { result ≡ quotient_of (F.Ring.meaning field.now) ratio.top ratio.bottom }
{
    let inverse = field.inverse(ratio.bottom)?;
    Ok(field.product(ratio.top, inverse))
}
