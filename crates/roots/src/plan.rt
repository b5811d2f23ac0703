// Closed plans: what a draft has gathered, and roots by it.
ghost use Rattle.std.specs.Prelude.{◌≡◌};
ghost use Rattle.roots.specs.Clauses.{RootLaws};
ghost use Rattle.roots.specs.Rooting.{rooted, answered};

use crate::gathered::{Closed, Gathered};
use refusals::Refusal;
use ring::Field;

// The two roots, smaller code first; the joinings and the tests made.
pub type Answer = ((u64, u64), (u64, u64));

// A closed plan roots marks, and takes nothing more.
pub type Plan<F> = Gathered<F, Closed>;

impl<F: Field> Plan<F> {
    // The two roots of a mark, or why it has none here. The answer keeps the laws over every list of calls that made the plan.
    pub fn root(&self, mark: u64) -> Result<Answer, Refusal>
        ensures value { result ≡ answered (rooted (F.Ring.meaning self.now.field) self.now.held mark) }
        ensures laws { RootLaws (F.Ring.meaning self.now.field) self.now.held mark result }
    {
        self.root_mark(mark)
    }
}
