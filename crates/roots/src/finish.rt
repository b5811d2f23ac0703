// The end of rooting: a ratio's value is a root, and is squared as a check.
ghost use Rattle.std.specs.Prelude.{◌≡◌};
ghost use Rattle.roots.specs.Rooting.{ordered, finished, ended, answered};

use crate::plan::Answer;
use crate::search::Search;
use joining::quotient;
use refusals::Refusal;
use ring::Field;
use theory::Ratio;

// Two roots, smaller code first.
pub(crate) fn in_order(a: u64, b: u64) -> (u64, u64)
    ensures { result ≡ ordered a b }
{
    (a.min(b), a.max(b))
}

impl<'a, F: Field> Search<'a, F> {
    // Step 6: one inverse is taken, and the root is squared. The counts, joinings and tests, are passed along.
    pub(crate) fn finish(&self, ratio: Ratio, counts: (u64, u64)) -> Result<Answer, Refusal>
        ensures { result ≡ answered (ended (finished (F.Ring.meaning self.now.ratios.ring.now) self.now.ratios.mark self.now.g counts.1 ratio) counts.0) }
    {
        let field = self.ratios.ring;
        let root = quotient(field, ratio)?;
        if field.product(root, root) != self.ratios.mark {
            return Err(self.unlawful(6));
        }
        Ok((in_order(root, field.negative(root)), counts))
    }
}
